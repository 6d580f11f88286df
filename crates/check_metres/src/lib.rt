// Where an image has metres: zeros in the words behind the last of them.
#![tactic(auto)]

ghost use Rattle.image_layout.specs.Fits.{LaidOut};
ghost use Rattle.image_string.specs.Decides.{Decides};
ghost use Rattle.check_metres.specs.Ends.{MetresEnded};

use check_sample::list_ended;
use image_layout::Layout;

// Are the words behind the last number of metres zero? Without metres there are none.
pub fn metres_ended(b: &[u8], layout: Layout) -> bool
    requires { LaidOut b.now layout }
    ensures { Decides result (MetresEnded b.now layout.metres layout.nodes) }
{
    let metres = layout.metres;
    let Some(block) = metres else {
        return true;
    };
    list_ended(b, block as usize, layout.nodes as usize)
}
