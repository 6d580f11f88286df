// The call `list`: the whole check, then the listing of a node, measured and written.
#![tactic(auto)]

ghost use Rattle.std.specs.Prelude.{◌≡◌};
ghost use Rattle.meaning.specs.Answers.{answer_of, came_to};
ghost use Rattle.calls.specs.Calls.{list_image};

use check_image::check;
use image_found::answer_of;
use list_measure::measure;
use list_write::list_node;
use meaning::{Answer, NO_ROOM, NOT_ALLOWED, Refusal, TOO_DEEP};
use table_answers::{answered, done, refuse};

// The listing of a node: all that may refuse it is found before anything is written.
pub fn list(b: &[u8], node: u32, out: &mut [u32]) -> Answer
    ensures { came_to result out.new ≡ list_image b.now node out.old }
{
    answered(try_list(b, node, out))
}

fn try_list(b: &[u8], node: u32, out: &mut [u32]) -> Result<Answer, Refusal>
    ensures { came_to (answer_of result) out.new ≡ list_image b.now node out.old }
{
    let found = check(b);
    let Ok(image) = found else {
        return Ok(answer_of(found));
    };
    if node == 0 {
        return refuse(NOT_ALLOWED, 1);
    }
    if image.nodes < node {
        return refuse(NOT_ALLOWED, 1);
    }
    let x = node as usize;
    let mut cursors: [u32; 64] = [0; 64];
    let nodes = match measure(b, image, x, &mut cursors) {
        Ok(nodes) => nodes,
        Err(first) => return refuse(TOO_DEEP, first),
    };
    if out.len() < 2 * nodes as usize {
        return refuse(NO_ROOM, 0);
    }
    list_node(b, image.r0_block as usize, node, 64, &mut cursors, out);
    Ok(done(nodes, 0))
}
