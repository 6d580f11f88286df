// The image of a parent list, with metres or without: its refusals, its layout, its room, and then
// the image.
#![tactic(auto)]

ghost use Rattle.std.specs.Prelude.{◌≡◌, ◌*◌, length};
ghost use Rattle.meaning.specs.Answers.{answer_of, came_to};
ghost use Rattle.meaning.specs.Image.{version_of, metres_held};
ghost use Rattle.calls.specs.Calls.{seal_parents};
ghost use Rattle.seal_image.specs.Given.{given};

use image_layout::layout_of;
use meaning::{Answer, NO_ROOM, Refusal, TREE_ALONE, WITH_METRES};
use parents_check::parents_refusal;
use seal_image::write_image;
use seal_r1_bits::count_runs;
use table_answers::{done, refuse};

// The version of an image by its list of metres.
fn version_by(metres: &[u32]) -> u32
    ensures { result ≡ version_of (given metres.now) }
{
    if metres.is_empty() {
        TREE_ALONE
    } else {
        WITH_METRES
    }
}

// The image of a parent list. The list of metres is empty, for none, or has one for each node.
pub fn seal_parents(parents: &[u32], metres: &[u32], image: &mut [u8]) -> Result<Answer, Refusal>
    requires { length metres.now ≡ metres_held (version_of (given metres.now)) (length parents.now) }
    ensures { came_to (answer_of result) image.new ≡ seal_parents (given metres.now) parents.now image.old }
{
    parents_refusal(parents)?;
    let layout = layout_of(version_by(metres), parents.len(), count_runs(parents));
    if image.len() < 512 * layout.blocks as usize {
        return refuse(NO_ROOM, 0);
    }
    write_image(image, parents, metres, layout);
    Ok(done(layout.nodes, layout.runs))
}
