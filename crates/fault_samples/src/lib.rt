// The lowest block of an image with a wrong sample, where all but the samples is right.
#![tactic(auto)]

ghost use Rattle.std.specs.Prelude.{◌≡◌, ℕ, ◌+◌, ◌*◌, ◌≤◌, ◌<◌, length};
ghost use Rattle.theory.specs.Bounds.{most_block};
ghost use Rattle.meaning.specs.Strings.{ones};
ghost use Rattle.meaning.specs.Image.{string_blocks, string_in};
ghost use Rattle.meaning.specs.Faults.{wrong_sample};
ghost use Rattle.theory.specs.Stages.{samples_of, blocks_of_samples, CountsAndPadding};
ghost use Rattle.theory.specs.Faults.{RestKept, BlockSampled};
ghost use Rattle.theory.specs.Places.{place_of};
ghost use Rattle.image_layout.specs.Layout.{layout_in};
ghost use Rattle.image_layout.specs.Fits.{LaidOut};
ghost use Rattle.fault_strings.specs.Lowest.{LowestBlock};
ghost use Rattle.fault_samples.specs.AllBut.{AllButSamples};

use check_counts_and_samples::blocks_right;
use image_layout::{Layout, sample_at};
use image_words::word;
use nav_select::select_after;

// The lowest block of the samples of a string with m ones that has a wrong one. In the first block
// of the string that has a wrong one, each sample's one is looked for from that of the sample
// before.
fn wrong_in_samples(b: &[u8], samples: usize, m: u32, bits_block: usize, n: usize) -> Option<u32>
    requires le_n { 1 ≤ n }
    requires n_bound { n ≤ 65536 }
    requires m_value { m ≡ ones (string_in b.now bits_block 0 n) }
    requires bits_block_le_most_block { bits_block ≤ most_block }
    requires le_samples { 1 ≤ samples }
    requires samples_le_most_block { samples ≤ most_block }
    requires b_len_bound { length b.now ≤ 512 * most_block }
    requires n_in_bounds { 512 * (bits_block + string_blocks n) ≤ length b.now }
    requires m_in_bounds { 512 * (samples + blocks_of_samples m) ≤ length b.now }
    requires counts_and_padding { CountsAndPadding b.now bits_block (string_in b.now bits_block 0 n) }
    requires by_index { (j : ℕ) → j < blocks_of_samples m → RestKept b.now samples (samples_of m) j }
    ensures { LowestBlock (BlockSampled b.now samples (string_in b.now bits_block 0 n)) samples (blocks_of_samples m) result }
{
    let count = (m as usize + 63) / 64;
    let j = blocks_right(b, samples, m, bits_block, n);
    // the bits before that block, and then before the one of the last sample; the ones among them
    let mut i = 4000 * j;
    let mut passed = word(b, 512 * (bits_block + j)) as usize;
    for s in (passed + 63) / 64..count {
        let place = select_after(b, bits_block, n, i, passed, 64 * s + 1);
        if word(b, sample_at(samples, s)) as usize != place {
            return Some((samples + s / 126) as u32);
        }
        i = place - 1;
        passed = 64 * s;
    }
    None
}

// The lowest block with a wrong sample, of an image whose strings, counts and unused payload are
// right.
pub fn wrong_samples(b: &[u8], layout: Layout) -> Option<u32>
    requires laid_out { LaidOut b.now layout }
    requires layout_value { layout ≡ layout_in b.now }
    requires all_but_samples { AllButSamples b.now }
    ensures { result ≡ place_of (wrong_sample b.now) }
{
    let n = layout.nodes as usize;
    let m = layout.runs;
    let r0_block = layout.r0_block as usize;
    if let Some(of_r1) = wrong_in_samples(b, layout.r1_samples as usize, m, 1, n) {
        return Some(of_r1);
    }
    wrong_in_samples(b, layout.r0_samples as usize, m, r0_block, n + 1)
}
