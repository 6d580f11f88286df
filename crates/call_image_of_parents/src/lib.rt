// The call `image_of_parents`: the sealed image of a parent list.
#![tactic(auto)]

ghost use Rattle.std.specs.Prelude.{◌≡◌};
ghost use Rattle.meaning.specs.Answers.{came_to};
ghost use Rattle.calls.specs.Calls.{image_of_parents};

use meaning::Answer;
use seal_parents::seal_parents;
use table_answers::answered;

// The image of a parent list, without metres: of these the list is empty.
pub fn image_of_parents(parents: &[u32], image: &mut [u8]) -> Answer
    ensures { came_to result image.new ≡ image_of_parents parents.now image.old }
{
    answered(seal_parents(parents, &[], image))
}
