// Ones counted: in a run of bits, in part of eight bytes, in eight bytes but not in eight others.
#![tactic(auto)]

ghost use Rattle.std.specs.Prelude.{◌≡◌, ◌+◌, ◌*◌, ◌/◌, ◌<◌, ◌≤◌, length};
ghost use Rattle.meaning.specs.Strings.{ones};
ghost use Rattle.meaning.specs.Bytes.{bit_at, bits_from, value};
ghost use Rattle.bits_count.specs.Without.{without};

use bits_byte::{ones_in_byte, ones_in_front};
use bits_word::{ones_in_word, stored_word, whole_word};

// How many of the n bits from byte `at` on are one: words of eight bytes, then bytes, then the
// front of the last byte.
pub fn ones_from(b: &[u8], at: usize, n: usize) -> u32
    requires n_bound { n ≤ 4000 }
    requires n_in_bounds { at + (n + 7) / 8 ≤ length b.now }
    ensures { result ≡ ones (bits_from b.now (8 * at) n) }
{
    let whole = n / 8;
    let mut count: u32 = 0;
    for i in 0..whole / 8 {
        count += ones_in_word(b, at + 8 * i);
    }
    for i in whole / 8 * 8..whole {
        count += ones_in_byte(b[at + i]);
    }
    if n % 8 == 0 {
        return count;
    }
    count + ones_in_front(b[at + whole], n % 8)
}

// How many of the first n bits from byte `at` on are one, of the 64 in eight bytes.
pub fn ones_before(b: &[u8], at: usize, n: usize) -> u32
    requires n_bound { n < 64 }
    requires at_in_bounds { at + 8 ≤ length b.now }
    ensures { result ≡ ones (bits_from b.now (8 * at) n) }
{
    // two shifts, since 64 is too far for one
    u64::count_ones((whole_word(b, at) >> 1) >> (63 - n))
}

// How many of the bits from byte `at` on up to the one that p come before are one, if that one is;
// else 0.
pub fn ones_ending(b: &[u8], at: usize, p: usize) -> u32
    requires p_bound { p < 64 }
    requires at_in_bounds { at + 8 ≤ length b.now }
    ensures { result ≡ value (bit_at b.now (8 * at + p)) * ones (bits_from b.now (8 * at) (p + 1)) }
{
    // a product, not a branch on the bit
    let x = whole_word(b, at) >> (63 - p);
    (x % 2) as u32 * u64::count_ones(x)
}

// At how many of 64 places the bits from byte `at` on are one, and those from byte `other` on are
// not.
pub fn ones_without(b: &[u8], at: usize, other: usize) -> u32
    requires at_in_bounds { at + 8 ≤ length b.now }
    requires other_in_bounds { other + 8 ≤ length b.now }
    ensures { result ≡ ones (without (bits_from b.now (8 * at) 64) (bits_from b.now (8 * other) 64)) }
{
    let x = stored_word(b, at);
    u64::count_ones(x - (x & stored_word(b, other)))
}
