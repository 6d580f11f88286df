// R1 and R0 in step through a whole block, shown by their samples alone.
#![tactic(auto)]

ghost use Rattle.std.specs.Prelude.{◌+◌, ◌*◌, ◌≤◌};
ghost use Rattle.image_layout.specs.Fits.{LaidOut};
ghost use Rattle.check_runs_samples.specs.Ahead.{Tells, Ahead};

use image_layout::{Layout, sample_at};
use image_words::word;

// Of R1's ones after the first `before` up to number `end`: has R0, where the one of a sample is,
// the one of its sample `by` further on? One in `by` samples is looked at; R0 is then ahead by more
// than the ones between two that are.
pub fn samples_ahead(b: &[u8], layout: Layout, before: usize, end: usize, by: usize) -> bool
    requires laid_out { LaidOut b.now layout }
    requires runs_bound { layout.runs ≤ 65536 }
    requires end_bound { end ≤ 70000 }
    requires le_by { 1 ≤ by }
    requires by_bound { by ≤ 4 }
    ensures { Tells result (Ahead b.now layout.r1_samples layout.r0_samples before end layout.runs by) }
{
    let samples1 = layout.r1_samples as usize;
    let samples0 = layout.r0_samples as usize;
    let m = layout.runs as usize;
    if before == 0 {
        return false;
    }
    let to = (end + 63) / 64;
    if m <= 64 * (to + by - 1) {
        return false;
    }
    for s in ((before - 1) / 64..to).step_by(by) {
        let own = word(b, sample_at(samples1, s));
        if own < word(b, sample_at(samples0, s + by)) {
            return false;
        }
    }
    true
}
