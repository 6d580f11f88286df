// The call `metres_of_image`: the metres of a sealed tree, after the whole check.
#![tactic(auto)]

ghost use Rattle.std.specs.Prelude.{◌≡◌};
ghost use Rattle.meaning.specs.Answers.{answer_of, came_to};
ghost use Rattle.calls.specs.Calls.{metres_of_image};

use check_image::check;
use image_found::answer_of;
use meaning::{Answer, NO_ROOM, NOT_ALLOWED, Refusal};
use table_answers::{answered, done, refuse};
use unseal_metres::write_metres;

// The metres of a sound image. One without metres is refused, whatever the room: none are not 0
// metres.
pub fn metres_of_image(b: &[u8], out: &mut [u32]) -> Answer
    ensures { came_to result out.new ≡ metres_of_image b.now out.old }
{
    answered(try_metres_of_image(b, out))
}

fn try_metres_of_image(b: &[u8], out: &mut [u32]) -> Result<Answer, Refusal>
    ensures { came_to (answer_of result) out.new ≡ metres_of_image b.now out.old }
{
    let found = check(b);
    let Ok(image) = found else {
        return Ok(answer_of(found));
    };
    let at = image.metres;
    let Some(block) = at else {
        return refuse(NOT_ALLOWED, 1);
    };
    let nodes = image.nodes as usize;
    if out.len() < nodes {
        return refuse(NO_ROOM, 0);
    }
    write_metres(b, block as usize, nodes, out);
    Ok(done(image.nodes, 0))
}
