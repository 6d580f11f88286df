// The call `parents_of_image`: the parent list of a sealed tree, after the whole check.
#![tactic(auto)]

ghost use Rattle.std.specs.Prelude.{◌≡◌};
ghost use Rattle.meaning.specs.Answers.{answer_of, came_to};
ghost use Rattle.calls.specs.Calls.{parents_of_image};

use check_image::check;
use image_found::answer_of;
use meaning::{Answer, NO_ROOM, Refusal};
use table_answers::{answered, done, refuse};
use unseal_parents::write_parents;

// The parent list of a sound image.
pub fn parents_of_image(b: &[u8], out: &mut [u32]) -> Answer
    ensures { came_to result out.new ≡ parents_of_image b.now out.old }
{
    answered(try_parents_of_image(b, out))
}

fn try_parents_of_image(b: &[u8], out: &mut [u32]) -> Result<Answer, Refusal>
    ensures { came_to (answer_of result) out.new ≡ parents_of_image b.now out.old }
{
    let found = check(b);
    let Ok(image) = found else {
        return Ok(answer_of(found));
    };
    let nodes = image.nodes as usize;
    if out.len() < nodes {
        return refuse(NO_ROOM, 0);
    }
    write_parents(b, image.r0_block as usize, nodes, out);
    Ok(done(image.nodes, 0))
}
