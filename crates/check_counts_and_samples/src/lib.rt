// The number of earlier ones in each block of a string, and the string's samples.
#![tactic(auto)]

ghost use Rattle.std.specs.Prelude.{◌≡◌, ℕ, ◌+◌, ◌*◌, ◌≤◌, length};
ghost use Rattle.theory.specs.Bounds.{most_block};
ghost use Rattle.meaning.specs.Strings.{ones};
ghost use Rattle.meaning.specs.Bytes.{bits_from};
ghost use Rattle.theory.specs.Layout.{sample_place, word_at};
ghost use Rattle.theory.specs.Stages.{blocks_of_samples, Sampled};
ghost use Rattle.image_string.specs.Decides.{Decides};
ghost use Rattle.check_sample_table.specs.Table.{CountsBefore};
ghost use Rattle.check_sample.specs.Words.{bits_in};
ghost use Rattle.check_counts_and_samples.specs.Pieces.{PieceSampled};
ghost use Rattle.meaning.specs.Image.{string_blocks, string_in};
ghost use Rattle.image_string.specs.Parts.{ones_to};
ghost use Rattle.check_counts_and_samples.specs.Samples.{SampledWithin, BlockRight, BlocksRight, FrontRight};

use bits_count::ones_from;
use check_sample::{Piece, sample_right, words_zero};
use check_sample_table::{add_up, count_words};
use image_layout::{last_block, sample_at};
use image_words::word;

// Where the sample after the one at byte p is: the next word, over the sums of a block if those
// come first.
fn next_sample(p: usize) -> usize
    requires { p ≤ 1024 * most_block }
    ensures { (from s : ℕ) → p ≡ sample_place from s → result ≡ sample_place from (s + 1) }
{
    if p % 512 == 500 { p + 12 } else { p + 4 }
}

// Of a piece that k ones of its string come before, up to `end` ones with its own: are the samples
// right of the ones in it that have one?
fn each_sampled(
    b: &[u8],
    samples: usize,
    piece: Piece,
    k: usize,
    end: usize,
    table: &[u32; 63],
) -> bool
    requires at_bound { piece.at ≤ 1024 * most_block }
    requires piece_bound { bits_in piece ≤ 4000 }
    requires first_bound { piece.first ≤ 65537 }
    requires k_bound { k ≤ 65536 }
    requires samples_le_most_block { samples ≤ most_block }
    requires end_value { end ≡ k + ones (bits_from b.now (8 * piece.at) (bits_in piece)) }
    requires at_in_bounds { piece.at + 504 ≤ length b.now }
    requires end_in_bounds { 512 * (samples + blocks_of_samples end) ≤ length b.now }
    requires counts_before { CountsBefore b.now piece.at table.now }
    ensures { Decides result (PieceSampled b.now samples piece.at (bits_in piece) piece.first k) }
{
    let passed = (k + 63) / 64;
    let mut p = sample_at(samples, passed);
    for s in passed..(end + 63) / 64 {
        if !sample_right(b, p, piece, 64 * s + 1 - k, table) {
            return false;
        }
        p = next_sample(p);
    }
    true
}

// Of a piece of 4,000 bits that k ones of its string come before: are there `end` ones with its
// own, and are the samples right of the ones in it that have one? The ones before each word are
// counted for both.
fn full_piece_right(b: &[u8], samples: usize, piece: Piece, k: usize, end: usize) -> bool
    requires at_bound { piece.at ≤ 1024 * most_block }
    requires piece_value { bits_in piece ≡ 4000 }
    requires first_bound { piece.first ≤ 65537 }
    requires k_bound { k ≤ 65536 }
    requires samples_le_most_block { samples ≤ most_block }
    requires at_in_bounds { piece.at + 504 ≤ length b.now }
    requires end_in_bounds { 512 * (samples + blocks_of_samples end) ≤ length b.now }
    ensures { Decides result ((end ≡ k + ones (bits_from b.now (8 * piece.at) (bits_in piece))) × PieceSampled b.now samples piece.at (bits_in piece) piece.first k) }
{
    let at = piece.at;
    let mut table: [u32; 63] = [0; 63];
    count_words(b, at, &mut table);
    add_up(&mut table);
    // after 62 words comes half a one
    if k + table[62] as usize + ones_from(b, at + 496, 32) as usize != end {
        return false;
    }
    each_sampled(b, samples, piece, k, end, &table)
}

// Has a string `end` ones up to the end of its block number j, which is full, and are the samples
// right of those in the block?
fn full_block_right(b: &[u8], samples: usize, bits_block: usize, j: usize, end: usize) -> bool
    requires j_bound { j ≤ 16 }
    requires bits_block_le_most_block { bits_block ≤ most_block }
    requires samples_le_most_block { samples ≤ most_block }
    requires j_in_bounds { 512 * (bits_block + j + 1) ≤ length b.now }
    requires end_in_bounds { 512 * (samples + blocks_of_samples end) ≤ length b.now }
    requires j_value { word_at b.now (512 * (bits_block + j)) ≡ ones_to b.now bits_block (4000 * j) }
    ensures { Decides result (BlockRight b.now samples bits_block j end) }
{
    let at = 512 * (bits_block + j);
    let piece = Piece {
        at: at + 4,
        first: 4000 * j + 1,
        last: 4000 * j + 4000,
    };
    full_piece_right(b, samples, piece, word(b, at) as usize, end)
}

// How many blocks at the front of a string of n bits, m of them ones, have right samples, the block
// after each counting right: of those before its last, up to the first of which this does not hold.
pub fn blocks_right(b: &[u8], samples: usize, m: u32, bits_block: usize, n: usize) -> usize
    requires le_n { 1 ≤ n }
    requires n_bound { n ≤ 65536 }
    requires bits_block_le_most_block { bits_block ≤ most_block }
    requires samples_le_most_block { samples ≤ most_block }
    requires n_in_bounds { 512 * (bits_block + string_blocks n) ≤ length b.now }
    requires m_in_bounds { 512 * (samples + blocks_of_samples m) ≤ length b.now }
    requires bits_block_value { word_at b.now (512 * bits_block) ≡ 0 }
    ensures { FrontRight b.now samples m bits_block n result }
{
    let last = last_block(n);
    for j in 0..last {
        // the next block has the number of ones up to the end of this one
        let end = word(b, 512 * (bits_block + j + 1));
        if m < end {
            return j;
        }
        if !full_block_right(b, samples, bits_block, j, end as usize) {
            return j;
        }
    }
    last
}

// Of a string of n bits with m ones: do its blocks count right, and are the samples right of the
// ones in all but its last?
pub fn full_blocks_right(b: &[u8], samples: usize, m: u32, bits_block: usize, n: usize) -> bool
    requires le_n { 1 ≤ n }
    requires n_bound { n ≤ 65536 }
    requires bits_block_le_most_block { bits_block ≤ most_block }
    requires samples_le_most_block { samples ≤ most_block }
    requires n_in_bounds { 512 * (bits_block + string_blocks n) ≤ length b.now }
    requires m_in_bounds { 512 * (samples + blocks_of_samples m) ≤ length b.now }
    ensures { Decides result (BlocksRight b.now samples m bits_block n) }
{
    if word(b, 512 * bits_block) != 0 {
        return false;
    }
    blocks_right(b, samples, m, bits_block, n) == last_block(n)
}

// Of a piece that k ones of its string come before, up to `end` ones with its own: are the samples
// right of the ones in it that have one? The ones before each word are counted first, so that no
// branch waits for a count.
fn piece_sampled(b: &[u8], samples: usize, piece: Piece, k: usize, end: usize) -> bool
    requires at_bound { piece.at ≤ 1024 * most_block }
    requires piece_bound { bits_in piece ≤ 4000 }
    requires first_bound { piece.first ≤ 65537 }
    requires k_bound { k ≤ 65536 }
    requires samples_le_most_block { samples ≤ most_block }
    requires end_value { end ≡ k + ones (bits_from b.now (8 * piece.at) (bits_in piece)) }
    requires at_in_bounds { piece.at + 504 ≤ length b.now }
    requires end_in_bounds { 512 * (samples + blocks_of_samples end) ≤ length b.now }
    ensures { Decides result (PieceSampled b.now samples piece.at (bits_in piece) piece.first k) }
{
    let mut table: [u32; 63] = [0; 63];
    count_words(b, piece.at, &mut table);
    add_up(&mut table);
    each_sampled(b, samples, piece, k, end, &table)
}

// Are the samples right of the ones among the first n bits of block number j of a string, which has
// `end` ones up to there?
fn block_sampled(
    b: &[u8],
    samples: usize,
    bits_block: usize,
    j: usize,
    n: usize,
    end: usize,
) -> bool
    requires n_bound { n ≤ 4000 }
    requires j_bound { j ≤ 16 }
    requires bits_block_le_most_block { bits_block ≤ most_block }
    requires samples_le_most_block { samples ≤ most_block }
    requires end_value { end ≡ ones_to b.now bits_block (4000 * j + n) }
    requires j_in_bounds { 512 * (bits_block + j + 1) ≤ length b.now }
    requires end_in_bounds { 512 * (samples + blocks_of_samples end) ≤ length b.now }
    requires j_value { word_at b.now (512 * (bits_block + j)) ≡ ones_to b.now bits_block (4000 * j) }
    ensures { Decides result (SampledWithin b.now samples bits_block (4000 * j) (4000 * j + n)) }
{
    let at = 512 * (bits_block + j);
    let piece = Piece {
        at: at + 4,
        first: 4000 * j + 1,
        last: 4000 * j + n,
    };
    piece_sampled(b, samples, piece, word(b, at) as usize, end)
}

// Are the sample blocks of a string with m ones right: each sample in its word, and zeros after the
// last? The samples of the ones in all but its last block are.
pub fn samples_right(b: &[u8], samples: usize, m: u32, bits_block: usize, n: usize) -> bool
    requires le_n { 1 ≤ n }
    requires n_bound { n ≤ 65536 }
    requires m_value { m ≡ ones (string_in b.now bits_block 0 n) }
    requires bits_block_le_most_block { bits_block ≤ most_block }
    requires samples_le_most_block { samples ≤ most_block }
    requires n_in_bounds { 512 * (bits_block + string_blocks n) ≤ length b.now }
    requires m_in_bounds { 512 * (samples + blocks_of_samples m) ≤ length b.now }
    requires blocks_right { BlocksRight b.now samples m bits_block n }
    ensures { Decides result (Sampled b.now samples m (string_in b.now bits_block 0 n)) }
{
    let last = last_block(n);
    if !block_sampled(b, samples, bits_block, last, n - 4000 * last, m as usize) {
        return false;
    }
    words_zero(b, samples, m)
}
