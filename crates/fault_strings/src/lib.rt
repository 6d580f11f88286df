// Whether a tree with the header's n and m gives the strings of an image: by running sums, since
// the counts of earlier ones may be wrong. Which of these are is told on the way.
#![tactic(auto)]

ghost use Rattle.std.specs.Prelude.{◌≡◌, ◌+◌, ◌-◌, ◌*◌, ◌/◌, ◌≤◌, length};
ghost use Rattle.theory.specs.Bounds.{most_block};
ghost use Rattle.meaning.specs.Image.{string_blocks};
ghost use Rattle.image_layout.specs.Fits.{LaidOut};
ghost use Rattle.image_string.specs.Decides.{Decides};
ghost use Rattle.image_string.specs.Parts.{ones_to};
ghost use Rattle.check_runs.specs.Steps.{StepWithin};
ghost use Rattle.fault_strings.specs.Lowest.{LowestBlock};
ghost use Rattle.fault_strings.specs.Given.{CountKept, Lowest, LastBlocks, StepCounted, StringsGiven};
ghost use Rattle.fault_strings.specs.Found.{Finds};

use bits_count::ones_from;
use check_runs::block_in_step;
use image_layout::{Layout, bits_at, last_block, string_blocks};
use image_string::string_bit;
use image_words::word;

// The lowest block of each string that counts the ones of earlier blocks wrong, if one does.
#[derive(Clone, Copy)]
pub struct Miscounted {
    pub in_r1: Option<u32>,
    pub in_r0: Option<u32>,
}

// Is R1 in step with R0, whose blocks begin at block `r0_block`, in the first n bits of their
// blocks number j? `ones1` ones of R1 and `ones0` of R0 are in earlier blocks, and R1 has `end1` up
// to the end of these bits.
fn block_step(
    b: &[u8],
    r0_block: usize,
    j: usize,
    n: usize,
    ones1: u32,
    ones0: u32,
    end1: u32,
) -> bool
    requires n_bound { n ≤ 4000 }
    requires b_len_bound { length b.now ≤ 512 * most_block }
    requires j_in_bounds { 512 * (1 + j + 1) ≤ length b.now }
    requires j_in_bounds_2 { 512 * (r0_block + j + 1) ≤ length b.now }
    requires ones1_value { ones1 ≡ ones_to b.now 1 (4000 * j) }
    requires ones0_value { ones0 ≡ ones_to b.now r0_block (4000 * j) }
    requires end1_value { end1 ≡ ones_to b.now 1 (4000 * j + n) }
    ensures { Decides result (StepWithin b.now r0_block (4000 * j) (4000 * j + n)) }
{
    // then R1 has no more ones after the bits than R0 before them
    if end1 <= ones0 {
        return true;
    }
    block_in_step(b, r0_block, j, n, ones1, ones0)
}

// The lowest block with a wrong count up to block `block`, which has `kept` where `ones` is right;
// `found` is the lowest before it.
fn lowest_wrong(found: Option<u32>, block: usize, kept: u32, ones: u32) -> Option<u32>
    requires { block ≤ most_block }
    ensures { Lowest found block kept ones result }
{
    if kept == ones {
        return found;
    }
    found.or(Some(block as u32))
}

// Has R1 m ones in its n bits, and R0, whose blocks begin at block `r0_block`, one less in its
// first n, and are they in step in the last block of these? `ones1` ones of R1 and `ones0` of R0
// are in earlier blocks.
fn last_blocks(b: &[u8], r0_block: usize, n: usize, m: u32, ones1: u32, ones0: u32) -> bool
    requires le_n { 1 ≤ n }
    requires n_bound { n ≤ 65535 }
    requires b_len_bound { length b.now ≤ 512 * most_block }
    requires n_in_bounds { 512 * (1 + string_blocks n) ≤ length b.now }
    requires n_in_bounds_2 { 512 * (r0_block + string_blocks n) ≤ length b.now }
    requires ones1_value { ones1 ≡ ones_to b.now 1 (4000 * ((n - 1) / 4000)) }
    requires ones0_value { ones0 ≡ ones_to b.now r0_block (4000 * ((n - 1) / 4000)) }
    ensures { Decides result (LastBlocks b.now r0_block n m) }
{
    let last = last_block(n);
    let rest = n - 4000 * last;
    let end1 = ones1 + ones_from(b, bits_at(1 + last), rest);
    if end1 != m {
        return false;
    }
    let end0 = ones0 + ones_from(b, bits_at(r0_block + last), rest);
    if end0 + 1 != m {
        return false;
    }
    block_step(b, r0_block, last, rest, ones1, ones0, end1)
}

// The lowest block of R0 with a wrong count, where `found` is the lowest of the blocks of its first
// n bits: its last bit may be in a block of its own, which `ones` ones come before.
fn lowest_in_r0(b: &[u8], r0_block: usize, n: usize, found: Option<u32>, ones: u32) -> Option<u32>
    requires n_bound { n ≤ 65535 }
    requires b_len_bound { length b.now ≤ 512 * most_block }
    requires n_in_bounds { 512 * (r0_block + string_blocks (n + 1)) ≤ length b.now }
    requires lowest_wrong { LowestBlock (CountKept b.now r0_block) r0_block (string_blocks n) found }
    requires ones_value { ones ≡ ones_to b.now r0_block n }
    ensures { LowestBlock (CountKept b.now r0_block) r0_block (string_blocks (n + 1)) result }
{
    let last = last_block(n + 1);
    if last < string_blocks(n) {
        return found;
    }
    let block = r0_block + last;
    lowest_wrong(found, block, word(b, 512 * block), ones)
}

// Has R1 m ones in its n bits, and R0, whose blocks begin at block `r0_block`, m with one more
// after its first n, and are their runs in step? The ones before each block are counted on the way,
// and what the block says of them is held against that. If so: which blocks count wrong.
fn step_counted(b: &[u8], r0_block: usize, n: usize, m: u32) -> Option<Miscounted>
    requires le_n { 1 ≤ n }
    requires n_bound { n ≤ 65535 }
    requires b_len_bound { length b.now ≤ 512 * most_block }
    requires n_in_bounds { 512 * (1 + string_blocks n) ≤ length b.now }
    requires n_in_bounds_2 { 512 * (r0_block + string_blocks (n + 1)) ≤ length b.now }
    ensures { Finds result (StepCounted b.now r0_block n m) b.now r0_block n }
{
    if string_bit(b, 1, 0) == 0 {
        return None;
    }
    let last = last_block(n);
    let mut ones1: u32 = 0;
    let mut ones0: u32 = 0;
    let mut wrong1 = lowest_wrong(None, 1, word(b, 512), 0);
    let mut wrong0 = lowest_wrong(None, r0_block, word(b, 512 * r0_block), 0);
    for j in 0..last {
        let end1 = ones1 + ones_from(b, bits_at(1 + j), 4000);
        if !block_step(b, r0_block, j, 4000, ones1, ones0, end1) {
            return None;
        }
        let end0 = ones0 + ones_from(b, bits_at(r0_block + j), 4000);
        // what the next block of each counts before it
        let next1 = 1 + j + 1;
        let next0 = r0_block + j + 1;
        let kept1 = word(b, 512 * next1);
        let kept0 = word(b, 512 * next0);
        wrong1 = lowest_wrong(wrong1, next1, kept1, end1);
        wrong0 = lowest_wrong(wrong0, next0, kept0, end0);
        ones1 = end1;
        ones0 = end0;
    }
    if !last_blocks(b, r0_block, n, m, ones1, ones0) {
        return None;
    }
    Some(Miscounted {
        in_r1: wrong1,
        in_r0: lowest_in_r0(b, r0_block, n, wrong0, m - 1),
    })
}

// If a tree with n and m of the layout gives the strings of an image, at the blocks of its layout:
// which of their blocks count wrong. The last bit of each is one.
pub fn find_strings(b: &[u8], layout: Layout) -> Option<Miscounted>
    requires { LaidOut b.now layout }
    ensures { Finds result (StringsGiven b.now layout) b.now layout.r0_block layout.nodes }
{
    let n = layout.nodes as usize;
    let r0_block = layout.r0_block as usize;
    if string_bit(b, 1, n - 1) != 1 {
        return None;
    }
    if string_bit(b, r0_block, n) != 1 {
        return None;
    }
    step_counted(b, r0_block, n, layout.runs)
}
