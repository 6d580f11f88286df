// The call `image_with_metres`: the sealed image of a parent list with a number of metres for each
// node.
#![tactic(auto)]

ghost use Rattle.std.specs.Prelude.{◌≡◌};
ghost use Rattle.meaning.specs.Answers.{answer_of, came_to};
ghost use Rattle.calls.specs.Calls.{image_with_metres};

use meaning::{Answer, Refusal, WRONG_SIZE};
use seal_parents::seal_parents;
use table_answers::{answered, refuse};

// The image of a parent list and of its metres.
pub fn image_with_metres(parents: &[u32], metres: &[u32], image: &mut [u8]) -> Answer
    ensures { came_to result image.new ≡ image_with_metres parents.now metres.now image.old }
{
    answered(try_image_with_metres(parents, metres, image))
}

fn try_image_with_metres(
    parents: &[u32],
    metres: &[u32],
    image: &mut [u8],
) -> Result<Answer, Refusal>
    ensures { came_to (answer_of result) image.new ≡ image_with_metres parents.now metres.now image.old }
{
    if metres.len() != parents.len() {
        return refuse(WRONG_SIZE, 0);
    }
    // two empty lists are refused for the parents
    seal_parents(parents, metres, image)
}
