// What is wrong with an image that the check refuses, its header being right: the second pass, in
// the order of the codes.
#![tactic(auto)]

ghost use Rattle.std.specs.Prelude.{◌≡◌};
ghost use Rattle.theory.specs.Stages.{Header};
ghost use Rattle.image_layout.specs.Layout.{layout_in};
ghost use Rattle.image_layout.specs.Fits.{LaidOut};
ghost use Rattle.image_found.specs.Checked.{fault_in};

use fault_counts::wrong_counts;
use fault_samples::wrong_samples;
use fault_strings::find_strings;
use image_found::Fault;
use image_layout::Layout;

// What is wrong: the strings, else counts or unused payload, else the samples. The first pass has
// none of this left over, since it stops at the first thing that it finds.
pub fn what_is_wrong(b: &[u8], layout: Layout) -> Fault
    requires laid_out { LaidOut b.now layout }
    requires layout_value { layout ≡ layout_in b.now }
    requires header { Header b.now }
    ensures { result ≡ fault_in b.now }
{
    let Some(miscounted) = find_strings(b, layout) else {
        return Fault::Strings;
    };
    if let Some(block) = wrong_counts(b, layout, miscounted) {
        return Fault::Counts(block);
    }
    // `fault_in` says 0 where no sample is wrong
    Fault::Samples(wrong_samples(b, layout).unwrap_or(0))
}
