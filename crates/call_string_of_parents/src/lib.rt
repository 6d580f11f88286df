// The call `string_of_parents`: the tree string of a parent list.
#![tactic(auto)]

ghost use Rattle.std.specs.Prelude.{◌≡◌};
ghost use Rattle.meaning.specs.Answers.{answer_of, came_to};
ghost use Rattle.calls.specs.Calls.{string_of_parents};

use meaning::{Answer, NO_ROOM, Refusal};
use parents_check::parents_refusal;
use string_write::write_string;
use table_answers::{answered, done, refuse};

// The string of a parent list.
pub fn string_of_parents(parents: &[u32], bytes: &mut [u8]) -> Answer
    ensures { came_to result bytes.new ≡ string_of_parents parents.now bytes.old }
{
    answered(try_string_of_parents(parents, bytes))
}

fn try_string_of_parents(parents: &[u32], bytes: &mut [u8]) -> Result<Answer, Refusal>
    ensures { came_to (answer_of result) bytes.new ≡ string_of_parents parents.now bytes.old }
{
    parents_refusal(parents)?;
    let bits = 2 * parents.len() + 1;
    if bytes.len() < (bits + 7) / 8 {
        return refuse(NO_ROOM, 0);
    }
    write_string(bytes, 0, parents);
    let trees: usize = 1;
    Ok(done(bits as u32, trees as u32))
}
