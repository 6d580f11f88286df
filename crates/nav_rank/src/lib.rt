// Rank in a string that lies in blocks: the ones left of a position, from the nearer block end.
#![tactic(auto)]

ghost use Rattle.std.specs.Prelude.{◌≡◌, ◌+◌, ◌*◌, ◌≤◌, ◌<◌, length};
ghost use Rattle.theory.specs.Bounds.{most_block};
ghost use Rattle.meaning.specs.Strings.{ones};
ghost use Rattle.meaning.specs.Bytes.{bits_from};
ghost use Rattle.meaning.specs.Image.{string_blocks, string_in};
ghost use Rattle.theory.specs.Layout.{word_at};
ghost use Rattle.theory.specs.Rank.{ones_left};
ghost use Rattle.theory.specs.Stages.{CountsAndPadding};
ghost use Rattle.image_string.specs.Parts.{ones_to};

use bits_count::ones_before;
use bits_word::ones_in_word;
use image_layout::{bits_at, last_block};
use image_words::word;

// How many bits of the k words of eight bytes from `at` on are one.
fn ones_in_words(b: &[u8], at: usize, k: usize) -> u32
    requires k_bound { k ≤ 62 }
    requires k_in_bounds { at + 8 * k ≤ length b.now }
    ensures { result ≡ ones (bits_from b.now (8 * at) (64 * k)) }
{
    let mut count: u32 = 0;
    for i in 0..k {
        count += ones_in_word(b, at + 8 * i);
    }
    count
}

// How many ones of a string come before bit p of its block j, counted from the beginning of that
// block.
fn from_front(b: &[u8], bits_block: usize, j: usize, p: usize) -> usize
    requires p_bound { p < 4000 }
    requires j_bound { bits_block + j ≤ most_block + most_block }
    requires j_in_bounds { 512 * (bits_block + j + 1) ≤ length b.now }
    requires j_value { word_at b.now (512 * (bits_block + j)) ≡ ones_to b.now bits_block (4000 * j) }
    ensures { result ≡ ones_to b.now bits_block (4000 * j + p) }
{
    let start = bits_at(bits_block + j);
    word(b, 512 * (bits_block + j)) as usize
        + ones_in_words(b, start, p / 64) as usize
        + ones_before(b, start + 8 * (p / 64), p % 64) as usize
}

// How many ones of a string come before bit p of its block j, counted from the end of that block,
// before which there are `end` ones: without those from the word of bit p on, of which the last is
// half a word, but for those before p.
fn from_end(b: &[u8], bits_block: usize, j: usize, p: usize, end: usize) -> usize
    requires p_bound { p < 4000 }
    requires j_bound { bits_block + j ≤ most_block + most_block }
    requires j_in_bounds { 512 * (bits_block + j + 1) ≤ length b.now }
    requires end_bound { end ≤ 65536 }
    requires end_value { end ≡ ones_to b.now bits_block (4000 * (j + 1)) }
    ensures { result ≡ ones_to b.now bits_block (4000 * j + p) }
{
    let start = bits_at(bits_block + j);
    let at = start + 8 * (p / 64);
    end + ones_before(b, at, p % 64) as usize
        - ones_in_words(b, at, 62 - p / 64) as usize
        - ones_before(b, start + 496, 32) as usize
}

// How many ones of a string of n bits, m of them ones, come before the end of its block j: as the
// next block says, or all.
fn ones_to_end(b: &[u8], bits_block: usize, n: usize, m: usize, j: usize) -> usize
    requires n_bound { n ≤ 65536 }
    requires m_value { m ≡ ones (string_in b.now bits_block 0 n) }
    requires bits_block_le_most_block { bits_block ≤ most_block }
    requires n_in_bounds { 512 * (bits_block + string_blocks n) ≤ length b.now }
    requires counts_and_padding { CountsAndPadding b.now bits_block (string_in b.now bits_block 0 n) }
    requires j_bound { j < string_blocks n }
    ensures { (result ≡ ones_to b.now bits_block (4000 * (j + 1))) × (result ≤ 65536) }
{
    if j == last_block(n) {
        return m;
    }
    word(b, 512 * (bits_block + j + 1)) as usize
}

// How many ones are left of position x, from 1, in the string of n bits, m of them ones, whose
// blocks begin at block `bits_block`: from the nearer end of its block.
pub fn rank(b: &[u8], bits_block: usize, n: usize, m: usize, x: usize) -> usize
    requires le_x { 1 ≤ x }
    requires x_le_n { x ≤ n }
    requires n_bound { n ≤ 65536 }
    requires m_value { m ≡ ones (string_in b.now bits_block 0 n) }
    requires bits_block_le_most_block { bits_block ≤ most_block }
    requires n_in_bounds { 512 * (bits_block + string_blocks n) ≤ length b.now }
    requires counts_and_padding { CountsAndPadding b.now bits_block (string_in b.now bits_block 0 n) }
    ensures { result ≡ ones_left (string_in b.now bits_block 0 n) x }
{
    let j = (x - 1) / 4000;
    let p = (x - 1) % 4000;
    if p < 2000 {
        return from_front(b, bits_block, j, p);
    }
    from_end(b, bits_block, j, p, ones_to_end(b, bits_block, n, m, j))
}
