// The place of a one in bytes: by words of eight bytes, and then in its byte of a word.
#![tactic(auto)]

ghost use Rattle.std.specs.Prelude.{◌≡◌, ◌+◌, ◌-◌, ◌*◌, ◌≤◌, length};
ghost use Rattle.theory.specs.Bounds.{most_block};
ghost use Rattle.meaning.specs.Strings.{ones};
ghost use Rattle.meaning.specs.Bytes.{bits_from};
ghost use Rattle.theory.specs.Rank.{position};
ghost use Rattle.bits_lanes.specs.Lanes.{word_bits};

use bits_lanes::count_lanes;
use bits_select_byte::select_in_byte;
use bits_word::{ones_in_word, stored_word};

// The place, from 1, of one number k of the bytes of a word: it is in the first byte whose ones,
// with those of all earlier bytes, are k or more. All eight sums are compared at once: 128 and a
// sum, less k, has the digit of 128 exactly if the sum is not less than k.
fn place_in_bytes(word: u64, k: u32) -> u32
    requires le_k { 1 ≤ k }
    requires k_bound { k ≤ ones (word_bits word 8) }
    ensures { result ≡ position (word_bits word 8) k }
{
    let ones = count_lanes(word);
    let sums = ones.here + ones.earlier + 0x8080808080808080;
    let enough = (sums - (k as u64) * 0x0101010101010101) & 0x8080808080808080;
    let byte = u64::trailing_zeros(enough) / 8;
    let need = k - ((ones.earlier >> (8 * byte)) & 0xFF) as u32;
    let x = ((word >> (8 * byte)) & 0xFF) as u8;
    8 * byte + select_in_byte(x, need)
}

// The place, from 1, of one number k of the eight bytes from `at` on.
fn place_in_word(b: &[u8], at: usize, k: u32) -> usize
    requires le_k { 1 ≤ k }
    requires at_in_bounds { at + 8 ≤ length b.now }
    requires k_bound { k ≤ ones (bits_from b.now (8 * at) 64) }
    ensures { result ≡ position (bits_from b.now (8 * at) 64) k }
{
    place_in_bytes(stored_word(b, at), k) as usize
}

// The place, from 1, of one number k of the bits from byte `at` on. It is before the last seven
// bytes, so that words can be read up to it.
pub fn place_from(b: &[u8], at: usize, k: u32) -> usize
    requires le_k { 1 ≤ k }
    requires b_len_bound { length b.now ≤ 512 * most_block }
    requires k_bound { k ≤ ones (bits_from b.now (8 * at) (8 * (length b.now - 7 - at))) }
    ensures { result ≡ position (bits_from b.now (8 * at) (8 * (length b.now - 7 - at))) k }
{
    let mut i = at;
    let mut need = k;
    let mut here = ones_in_word(b, i);
    while here < need {
        need -= here;
        i += 8;
        here = ones_in_word(b, i);
    }
    8 * (i - at) + place_in_word(b, i, need)
}
