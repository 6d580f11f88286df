// The block of a one in a string that lies in blocks, and its place in that block.
#![tactic(auto)]

ghost use Rattle.std.specs.Prelude.{◌≡◌, ◌+◌, ◌*◌, ◌/◌, ◌≤◌, ◌<◌, length};
ghost use Rattle.theory.specs.Bounds.{most_block};
ghost use Rattle.meaning.specs.Image.{string_blocks, string_in};
ghost use Rattle.theory.specs.Rank.{position};
ghost use Rattle.theory.specs.Stages.{CountsAndPadding};
ghost use Rattle.image_string.specs.Parts.{ones_to};

use bits_byte::ones_in_front;
use bits_select::place_from;
use image_layout::{bits_at, last_block};
use image_words::word;

// Of the ones after the first i bits of a string, the position of the one that `more` others come
// before. It is in the block of bit i.
pub fn place_after(b: &[u8], bits_block: usize, i: usize, more: usize) -> usize
    requires i_bound { i < 65536 }
    requires bits_block_le_most_block { bits_block ≤ most_block }
    requires b_len_bound { length b.now ≤ 512 * most_block }
    requires i_in_bounds { 512 * (bits_block + i / 4000 + 1) ≤ length b.now }
    requires more_bound { ones_to b.now bits_block i + more < ones_to b.now bits_block (4000 * (i / 4000 + 1)) }
    ensures { result ≡ position (string_in b.now bits_block 0 (4000 * (i / 4000 + 1))) (ones_to b.now bits_block i + more + 1) }
{
    let at = bits_at(bits_block + i / 4000) + i % 4000 / 8;
    // the ones of its byte that are among the first i bits
    let passed = ones_in_front(b[at], i % 8);
    i - i % 8 + place_from(b, at, passed + more as u32 + 1)
}

// The block in which one number k of a string of n bits is, in block j or after it: the last one
// before which there are fewer.
pub fn block_of(b: &[u8], bits_block: usize, n: usize, j: usize, k: usize) -> usize
    requires n_bound { n ≤ 65536 }
    requires bits_block_le_most_block { bits_block ≤ most_block }
    requires n_in_bounds { 512 * (bits_block + string_blocks n) ≤ length b.now }
    requires counts_and_padding { CountsAndPadding b.now bits_block (string_in b.now bits_block 0 n) }
    requires j_bound { j < string_blocks n }
    requires j_bound_2 { ones_to b.now bits_block (4000 * j) < k }
    requires k_bound { k ≤ ones_to b.now bits_block n }
    ensures { (j ≤ result) × (result < string_blocks n) × (ones_to b.now bits_block (4000 * result) < k) × (k ≤ ones_to b.now bits_block (4000 * (result + 1))) }
{
    let last = last_block(n);
    for i in j..last {
        if k <= word(b, 512 * (bits_block + i + 1)) as usize {
            return i;
        }
    }
    last
}
