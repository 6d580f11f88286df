// One sample: does it name the right bit? And are the words after the last number of a list zero?
#![tactic(auto)]

ghost use Rattle.std.specs.Prelude.{◌+◌, ◌*◌, ◌≤◌, length};
ghost use Rattle.theory.specs.Bounds.{most_block};
ghost use Rattle.meaning.specs.Strings.{ones};
ghost use Rattle.meaning.specs.Bytes.{bits_from};
ghost use Rattle.theory.specs.Layout.{word_at};
ghost use Rattle.theory.specs.Stages.{word_blocks, blocks_of_samples};
ghost use Rattle.image_string.specs.Decides.{Decides};
ghost use Rattle.check_sample_table.specs.Table.{CountsBefore};
ghost use Rattle.check_sample.specs.Words.{bits_in, NamesOne, ListEnds, RestZero};

use bits_count::ones_ending;
use image_layout::samples_of;
use image_string::all_zero;
use image_words::word;

// Bits of a string in an image, from byte `at` on: those from position `first` to position `last`
// of the string, counted from 1.
#[derive(Clone, Copy)]
pub struct Piece {
    pub at: usize,
    pub first: usize,
    pub last: usize,
}

// Does the sample at byte p name one number `nth` of the piece, counted from 1?
pub fn sample_right(b: &[u8], p: usize, piece: Piece, nth: usize, table: &[u32; 63]) -> bool
    requires at_bound { piece.at ≤ 1024 * most_block }
    requires piece_bound { bits_in piece ≤ 4000 }
    requires first_bound { piece.first ≤ 65537 }
    requires le_nth { 1 ≤ nth }
    requires nth_bound { nth ≤ ones (bits_from b.now (8 * piece.at) (bits_in piece)) }
    requires p_in_bounds { p + 4 ≤ length b.now }
    requires at_in_bounds { piece.at + 504 ≤ length b.now }
    requires counts_before { CountsBefore b.now piece.at table.now }
    ensures { Decides result (NamesOne b.now piece.at (bits_in piece) piece.first nth (word_at b.now p)) }
{
    let at = piece.at;
    let first = piece.first;
    let last = piece.last;
    let place = word(b, p) as usize;
    if place < first {
        return false;
    }
    if last < place {
        return false;
    }
    let o = place - first;
    let upto = ones_ending(b, at + 8 * (o / 64), o % 64) as usize;
    // no one is there
    if upto == 0 {
        return false;
    }
    table[o / 64] as usize + upto == nth
}

// Are the words zero that come after `count` numbers, in the blocks that they take from `block` on?
pub fn list_ended(b: &[u8], block: usize, count: usize) -> bool
    requires count_bound { count ≤ 65535 }
    requires block_le_most_block { block ≤ most_block }
    requires count_in_bounds { 512 * (block + word_blocks count) ≤ length b.now }
    ensures { Decides result (ListEnds b.now block count) }
{
    // the last block is full
    if count % 126 == 0 {
        return true;
    }
    let at = 512 * (block + count / 126);
    all_zero(b, at + 4 * (count % 126), at + 504)
}

// Are the words of the samples' blocks zero after the last sample of m ones?
pub fn words_zero(b: &[u8], samples: usize, m: u32) -> bool
    requires m_bound { m ≤ 65536 }
    requires samples_le_most_block { samples ≤ most_block }
    requires m_in_bounds { 512 * (samples + blocks_of_samples m) ≤ length b.now }
    ensures { Decides result (RestZero b.now samples m) }
{
    list_ended(b, samples, samples_of(m as usize))
}
