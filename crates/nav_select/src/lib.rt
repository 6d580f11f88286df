// Select in a string that lies in blocks: the position of a one, from the sample before it.
#![tactic(auto)]

ghost use Rattle.std.specs.Prelude.{◌≡◌, ◌+◌, ◌*◌, ◌≤◌, ◌<◌, length};
ghost use Rattle.theory.specs.Bounds.{most_block};
ghost use Rattle.meaning.specs.Strings.{ones};
ghost use Rattle.meaning.specs.Image.{string_blocks, string_in};
ghost use Rattle.theory.specs.Rank.{position};
ghost use Rattle.theory.specs.Stages.{CountsAndPadding, Sampled, blocks_of_samples};
ghost use Rattle.image_string.specs.Parts.{ones_to};

use image_layout::sample_at;
use image_words::word;
use nav_select_in_block::{block_of, place_after};

// The position, from 1, of one number k of the string of n bits whose blocks begin at block
// `bits_block`, `passed` ones being among its first i bits: from there, or from the beginning of
// the one's block if that comes later.
pub fn select_after(
    b: &[u8],
    bits_block: usize,
    n: usize,
    i: usize,
    passed: usize,
    k: usize,
) -> usize
    requires i_lt_n { i < n }
    requires passed_value { passed ≡ ones_to b.now bits_block i }
    requires passed_lt_k { passed < k }
    requires k_bound { k ≤ ones_to b.now bits_block n }
    requires n_bound { n ≤ 65536 }
    requires bits_block_le_most_block { bits_block ≤ most_block }
    requires b_len_bound { length b.now ≤ 512 * most_block }
    requires n_in_bounds { 512 * (bits_block + string_blocks n) ≤ length b.now }
    requires counts_and_padding { CountsAndPadding b.now bits_block (string_in b.now bits_block 0 n) }
    ensures { result ≡ position (string_in b.now bits_block 0 n) k }
{
    let j = block_of(b, bits_block, n, i / 4000, k);
    if i / 4000 < j {
        let earlier = word(b, 512 * (bits_block + j)) as usize;
        return place_after(b, bits_block, 4000 * j, k - 1 - earlier);
    }
    place_after(b, bits_block, i, k - 1 - passed)
}

// The position, from 1, of one number k of the string of n bits, m of them ones, whose blocks begin
// at block `bits_block` and whose samples begin at block `samples`: from the sample before it.
pub fn select(b: &[u8], bits_block: usize, n: usize, samples: usize, m: usize, k: usize) -> usize
    requires le_k { 1 ≤ k }
    requires k_le_m { k ≤ m }
    requires n_bound { n ≤ 65536 }
    requires m_value { m ≡ ones (string_in b.now bits_block 0 n) }
    requires bits_block_le_most_block { bits_block ≤ most_block }
    requires samples_le_most_block { samples ≤ most_block }
    requires b_len_bound { length b.now ≤ 512 * most_block }
    requires n_in_bounds { 512 * (bits_block + string_blocks n) ≤ length b.now }
    requires m_in_bounds { 512 * (samples + blocks_of_samples m) ≤ length b.now }
    requires counts_and_padding { CountsAndPadding b.now bits_block (string_in b.now bits_block 0 n) }
    requires sampled { Sampled b.now samples m (string_in b.now bits_block 0 n) }
    ensures { result ≡ position (string_in b.now bits_block 0 n) k }
{
    let q = (k - 1) / 64;
    // how many bits come before one number 64 q + 1
    let i = word(b, sample_at(samples, q)) as usize - 1;
    select_after(b, bits_block, n, i, 64 * q, k)
}
