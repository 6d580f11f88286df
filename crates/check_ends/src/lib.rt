// Of a whole string of an image: m ones, the last bit one, and zeros after it.
#![tactic(auto)]

ghost use Rattle.std.specs.Prelude.{◌≡◌, ◌+◌, ◌≤◌, ◌*◌, length};
ghost use Rattle.theory.specs.Bounds.{most_block};
ghost use Rattle.image_string.specs.Decides.{Decides};
ghost use Rattle.image_string.specs.Parts.{Unused, Counted};
ghost use Rattle.meaning.specs.Strings.{ones};
ghost use Rattle.meaning.specs.Image.{string_blocks, string_in};
ghost use Rattle.theory.specs.Stages.{Ended, CountsAndPadding};
ghost use Rattle.check_ends.specs.Parts.{StringRight};

use bits_count::ones_from;
use image_layout::{bits_at, last_block};
use image_string::{all_zero, string_bit};
use image_words::word;

// Of the 4,000 bits from byte `at` on, are those after the first `used` zero: the rest of a byte,
// then whole bytes?
pub fn rest_zero(b: &[u8], at: usize, used: usize) -> bool
    requires used_bound { used ≤ 4000 }
    requires at_in_bounds { at + 500 ≤ length b.now }
    ensures { Decides result (Unused b.now at used) }
{
    let whole = used / 8;
    if used % 8 == 0 {
        return all_zero(b, at + whole, at + 500);
    }
    if (b[at + whole] << (used % 8)) != 0 {
        return false;
    }
    all_zero(b, at + whole + 1, at + 500)
}

// Are there zeros after the last of the n bits of a string whose blocks have the number of earlier
// ones?
fn padding_right(b: &[u8], bits_block: usize, n: usize) -> bool
    requires le_n { 1 ≤ n }
    requires n_bound { n ≤ 65536 }
    requires bits_block_le_most_block { bits_block ≤ most_block }
    requires n_in_bounds { 512 * (bits_block + string_blocks n) ≤ length b.now }
    requires counted { Counted b.now bits_block n }
    ensures { Decides result (CountsAndPadding b.now bits_block (string_in b.now bits_block 0 n)) }
{
    let last = last_block(n);
    rest_zero(b, bits_at(bits_block + last), n - 4000 * last)
}

// How many of the n bits of the string whose blocks begin at block `bits_block` are one: what its
// last block counts before it, and the ones in it.
fn ones_in_string(b: &[u8], bits_block: usize, n: usize) -> u32
    requires le_n { 1 ≤ n }
    requires n_bound { n ≤ 65536 }
    requires bits_block_le_most_block { bits_block ≤ most_block }
    requires n_in_bounds { 512 * (bits_block + string_blocks n) ≤ length b.now }
    requires counted { Counted b.now bits_block n }
    ensures { result ≡ ones (string_in b.now bits_block 0 n) }
{
    let last = last_block(n);
    let at = 512 * (bits_block + last);
    word(b, at) + ones_from(b, at + 4, n - 4000 * last)
}

// Has the string of n bits m ones, the last bit among them?
fn string_ended(b: &[u8], bits_block: usize, n: usize, m: u32) -> bool
    requires le_n { 1 ≤ n }
    requires n_bound { n ≤ 65536 }
    requires bits_block_le_most_block { bits_block ≤ most_block }
    requires n_in_bounds { 512 * (bits_block + string_blocks n) ≤ length b.now }
    requires counted { Counted b.now bits_block n }
    ensures { Decides result (Ended m (string_in b.now bits_block 0 n)) }
{
    if ones_in_string(b, bits_block, n) != m {
        return false;
    }
    string_bit(b, bits_block, n - 1) == 1
}

// Of a string of n bits whose blocks count right: does it end in zeros, and has it m ones, the last
// bit among them?
pub fn string_right(b: &[u8], bits_block: usize, n: usize, m: u32) -> bool
    requires le_n { 1 ≤ n }
    requires n_bound { n ≤ 65536 }
    requires bits_block_le_most_block { bits_block ≤ most_block }
    requires n_in_bounds { 512 * (bits_block + string_blocks n) ≤ length b.now }
    requires counted { Counted b.now bits_block n }
    ensures { Decides result (StringRight b.now bits_block n m) }
{
    if !padding_right(b, bits_block, n) {
        return false;
    }
    string_ended(b, bits_block, n, m)
}
