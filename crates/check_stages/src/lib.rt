// The stages of the check after the sums and the header, in order: the end of the metres, counts,
// ends, samples, runs.
#![tactic(auto)]

ghost use Rattle.image_layout.specs.Fits.{LaidOut};
ghost use Rattle.image_string.specs.Decides.{Decides};
ghost use Rattle.check_stages.specs.Passes.{StringsPass, StagesPass};

use check_counts_and_samples::{full_blocks_right, samples_right};
use check_ends::string_right;
use check_metres::metres_ended;
use check_runs::in_step;
use image_layout::Layout;

// Do the two strings of an image and their samples pass, at the blocks of its layout?
fn strings_pass(b: &[u8], layout: Layout) -> bool
    requires { LaidOut b.now layout }
    ensures { Decides result (StringsPass b.now layout) }
{
    let n = layout.nodes as usize;
    let m = layout.runs;
    let zeros = layout.r0_block as usize;
    let samples1 = layout.r1_samples as usize;
    let samples0 = layout.r0_samples as usize;
    // the counts first: the later stages read them, and count no block again
    if !full_blocks_right(b, samples1, m, 1, n) {
        return false;
    }
    if !full_blocks_right(b, samples0, m, zeros, n + 1) {
        return false;
    }
    if !string_right(b, 1, n, m) {
        return false;
    }
    if !string_right(b, zeros, n + 1, m) {
        return false;
    }
    if !samples_right(b, samples1, m, 1, n) {
        return false;
    }
    if !samples_right(b, samples0, m, zeros, n + 1) {
        return false;
    }
    in_step(b, layout)
}

// Do the stages pass that come after the header?
pub fn stages_pass(b: &[u8], layout: Layout) -> bool
    requires { LaidOut b.now layout }
    ensures { Decides result (StagesPass b.now layout) }
{
    // of the metres at most one block is looked at
    let ended = metres_ended(b, layout);
    if !ended {
        return false;
    }
    strings_pass(b, layout)
}
