// The lowest block with a wrong count of earlier ones or unused payload that is not zero.
#![tactic(auto)]

ghost use Rattle.std.specs.Prelude.{◌≡◌, ◌+◌, ◌*◌, ◌≤◌, length};
ghost use Rattle.theory.specs.Bounds.{most_block};
ghost use Rattle.meaning.specs.Image.{string_blocks};
ghost use Rattle.meaning.specs.Faults.{wrong_kept};
ghost use Rattle.theory.specs.Stages.{word_blocks, runs_of, read_r1, read_r0, Ended};
ghost use Rattle.theory.specs.Faults.{BlockKept, RestKept};
ghost use Rattle.theory.specs.Places.{place_of};
ghost use Rattle.image_layout.specs.Layout.{layout_in};
ghost use Rattle.image_layout.specs.Fits.{LaidOut};
ghost use Rattle.fault_strings.specs.Lowest.{LowestBlock};
ghost use Rattle.fault_strings.specs.Given.{CountKept};
ghost use Rattle.fault_counts.specs.After.{LowestAfterMetres};

use check_ends::rest_zero;
use check_sample::list_ended;
use fault_strings::Miscounted;
use image_layout::{Layout, bits_at, last_block, list_blocks, samples_of};

// The lowest block of a string of n bits that counts the earlier ones wrong, or has bits that are
// one after the last of the string. `miscounted` is the lowest that counts wrong; only the last
// block has unused bits.
fn wrong_in_string(b: &[u8], bits_block: usize, n: usize, miscounted: Option<u32>) -> Option<u32>
    requires le_n { 1 ≤ n }
    requires n_bound { n ≤ 65536 }
    requires bits_block_le_most_block { bits_block ≤ most_block }
    requires n_in_bounds { 512 * (bits_block + string_blocks n) ≤ length b.now }
    requires lowest_wrong { LowestBlock (CountKept b.now bits_block) bits_block (string_blocks n) miscounted }
    ensures { LowestBlock (BlockKept b.now bits_block n) bits_block (string_blocks n) result }
{
    if miscounted.is_some() {
        return miscounted;
    }
    let last = last_block(n);
    if rest_zero(b, bits_at(bits_block + last), n - 4000 * last) {
        return None;
    }
    Some((bits_block + last) as u32)
}

// The block of a list of so many numbers with a word after the last of them that is not zero. Only
// the last block has words that are not in the list.
fn wrong_after_list(b: &[u8], block: usize, count: usize) -> Option<u32>
    requires le_count { 1 ≤ count }
    requires count_bound { count ≤ 65535 }
    requires block_le_most_block { block ≤ most_block }
    requires count_in_bounds { 512 * (block + word_blocks count) ≤ length b.now }
    ensures { LowestBlock (RestKept b.now block count) block (word_blocks count) result }
{
    if list_ended(b, block, count) {
        return None;
    }
    Some((block + list_blocks(count) - 1) as u32)
}

// The block of metres with a word after the last of them that is not zero. An image may have no
// metres.
fn wrong_after_metres(b: &[u8], layout: Layout) -> Option<u32>
    requires { LaidOut b.now layout }
    ensures { LowestAfterMetres b.now layout.metres layout.nodes result }
{
    let Some(block) = layout.metres else {
        return None;
    };
    wrong_after_list(b, block as usize, layout.nodes as usize)
}

// The lowest block of an image whose strings are given that counts the earlier ones wrong or has
// unused payload that is not zero. Which block of each string counts wrong was found with the
// strings.
pub fn wrong_counts(b: &[u8], layout: Layout, miscounted: Miscounted) -> Option<u32>
    requires laid_out { LaidOut b.now layout }
    requires layout_value { layout ≡ layout_in b.now }
    requires le_runs { 1 ≤ layout.runs }
    requires runs_bound { layout.runs ≤ 65535 }
    requires ended { Ended (runs_of b.now) (read_r1 b.now) }
    requires ended_2 { Ended (runs_of b.now) (read_r0 b.now) }
    requires lowest_wrong { LowestBlock (CountKept b.now 1) 1 (string_blocks layout.nodes) miscounted.in_r1 }
    requires lowest_wrong_2 { LowestBlock (CountKept b.now layout.r0_block) layout.r0_block (string_blocks (layout.nodes + 1)) miscounted.in_r0 }
    ensures { result ≡ place_of (wrong_kept b.now) }
{
    let n = layout.nodes as usize;
    let r0_block = layout.r0_block as usize;
    if let Some(in_r1) = wrong_in_string(b, 1, n, miscounted.in_r1) {
        return Some(in_r1);
    }
    if let Some(in_r0) = wrong_in_string(b, r0_block, n + 1, miscounted.in_r0) {
        return Some(in_r0);
    }
    let samples = samples_of(layout.runs as usize);
    if let Some(after_r1) = wrong_after_list(b, layout.r1_samples as usize, samples) {
        return Some(after_r1);
    }
    if let Some(after_r0) = wrong_after_list(b, layout.r0_samples as usize, samples) {
        return Some(after_r0);
    }
    wrong_after_metres(b, layout)
}
