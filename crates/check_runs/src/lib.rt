// The runs of R1 and R0 in step: blocks passed over by counts or samples, else word by word.
#![tactic(auto)]

ghost use Rattle.std.specs.Prelude.{◌≡◌, ◌+◌, ◌/◌, ◌<◌, ◌≤◌, ◌*◌, length};
ghost use Rattle.image_string.specs.Decides.{Decides};
ghost use Rattle.check_runs_words.specs.Steps.{StepAt};
ghost use Rattle.meaning.specs.Image.{string_in};
ghost use Rattle.theory.specs.Bounds.{most_block, most_ones};
ghost use Rattle.theory.specs.Stages.{InStep};
ghost use Rattle.image_layout.specs.Fits.{LaidOut};
ghost use Rattle.image_string.specs.Parts.{Counted, ones_to};
ghost use Rattle.check_counts_and_samples.specs.Samples.{Placed};
ghost use Rattle.check_runs.specs.Steps.{StepWithin};

use bits_count::ones_without;
use check_runs_samples::samples_ahead;
use check_runs_words::{bytes_in_step, word_in_step};
use image_layout::{Layout, bits_at, last_block};
use image_string::string_bit;
use image_words::word;

// Of n bits of R1 from byte `at1` on, which `ones1` ones come before, and n of R0 from `at0` on,
// which `ones0` come before: is R1 in step with R0 at each of them? Eight bytes at a time.
fn words_in_step(b: &[u8], at1: usize, at0: usize, n: usize, ones1: usize, ones0: usize) -> bool
    requires b_len_bound { length b.now ≤ 512 * most_block }
    requires n_bound { n ≤ 4000 }
    requires n_in_bounds { at1 + (n + 7) / 8 ≤ length b.now }
    requires n_in_bounds_2 { at0 + (n + 7) / 8 ≤ length b.now }
    requires n_bound_2 { ones1 + n ≤ most_ones }
    requires n_bound_3 { ones0 + n ≤ most_ones }
    ensures { Decides result (StepAt b.now at1 at0 n ones1 ones0) }
{
    let mut before1 = ones1;
    let mut before0 = ones0;
    for w in 0..n / 64 {
        let i = 8 * w;
        let more = ones_without(b, at1 + i, at0 + i) as usize;
        if !word_in_step(b, at1 + i, at0 + i, before1, before0, more) {
            return false;
        }
        // the ones that both have are left out of both counts
        before1 += more;
        before0 += ones_without(b, at0 + i, at1 + i) as usize;
    }
    let i = 8 * (n / 64);
    bytes_in_step(b, at1 + i, at0 + i, n % 64, before1, before0)
}

// Is R1 in step with R0, whose blocks begin at block `zeros`, in the first n bits of their blocks
// number j? `ones1` ones of R1 and `ones0` of R0 are in earlier blocks.
pub fn block_in_step(b: &[u8], zeros: usize, j: usize, n: usize, ones1: u32, ones0: u32) -> bool
    requires n_bound { n ≤ 4000 }
    requires b_len_bound { length b.now ≤ 512 * most_block }
    requires j_in_bounds { 512 * (1 + j + 1) ≤ length b.now }
    requires j_in_bounds_2 { 512 * (zeros + j + 1) ≤ length b.now }
    requires ones1_value { ones1 ≡ ones_to b.now 1 (4000 * j) }
    requires ones0_value { ones0 ≡ ones_to b.now zeros (4000 * j) }
    ensures { Decides result (StepWithin b.now zeros (4000 * j) (4000 * j + n)) }
{
    words_in_step(
        b,
        bits_at(1 + j),
        bits_at(zeros + j),
        n,
        ones1 as usize,
        ones0 as usize,
    )
}

// Is R1 in step with R0 in block number j of both strings, where R1 has another block after it?
fn full_block_in_step(b: &[u8], layout: Layout, j: usize) -> bool
    requires laid_out { LaidOut b.now layout }
    requires runs_bound { layout.runs ≤ 65536 }
    requires j_bound { 4000 * (j + 1) < layout.nodes }
    requires counted { Counted b.now 1 layout.nodes }
    requires counted_2 { Counted b.now layout.r0_block (layout.nodes + 1) }
    requires placed { Placed b.now layout.r1_samples 1 layout.runs }
    requires placed_2 { Placed b.now layout.r0_samples layout.r0_block layout.runs }
    ensures { Decides result (StepWithin b.now layout.r0_block (4000 * j) (4000 * j + 4000)) }
{
    let zeros = layout.r0_block as usize;
    let end1 = word(b, 512 * (1 + j + 1));
    let ones0 = word(b, 512 * (zeros + j));
    // then R1 has no more ones after the block than R0 before it
    if end1 <= ones0 {
        return true;
    }
    let ones1 = word(b, 512 * (1 + j));
    // one in 256 ones is looked at
    if samples_ahead(b, layout, ones1 as usize, end1 as usize, 4) {
        return true;
    }
    // one in 64
    if samples_ahead(b, layout, ones1 as usize, end1 as usize, 1) {
        return true;
    }
    block_in_step(b, zeros, j, 4000, ones1, ones0)
}

// Are the runs of the two strings in step? The first bit of R1 is one, and before its last bit R1
// never has more ones than R0.
pub fn in_step(b: &[u8], layout: Layout) -> bool
    requires laid_out { LaidOut b.now layout }
    requires runs_bound { layout.runs ≤ 65536 }
    requires counted { Counted b.now 1 layout.nodes }
    requires counted_2 { Counted b.now layout.r0_block (layout.nodes + 1) }
    requires placed { Placed b.now layout.r1_samples 1 layout.runs }
    requires placed_2 { Placed b.now layout.r0_samples layout.r0_block layout.runs }
    ensures { Decides result (InStep (string_in b.now 1 0 layout.nodes) (string_in b.now layout.r0_block 0 (layout.nodes + 1))) }
{
    let n = layout.nodes as usize;
    let zeros = layout.r0_block as usize;
    if string_bit(b, 1, 0) == 0 {
        return false;
    }
    let last = last_block(n);
    for j in 0..last {
        if !full_block_in_step(b, layout, j) {
            return false;
        }
    }
    let ones1 = word(b, 512 * (1 + last));
    let ones0 = word(b, 512 * (zeros + last));
    block_in_step(b, zeros, last, n - 4000 * last, ones1, ones0)
}
