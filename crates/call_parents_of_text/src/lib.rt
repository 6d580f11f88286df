// The call `parents_of_text`: the parent list of a tree that is given as parenthesis text.
#![tactic(auto)]

ghost use Rattle.std.specs.Prelude.{◌≡◌};
ghost use Rattle.meaning.specs.Answers.{answer_of, came_to};
ghost use Rattle.calls.specs.Calls.{parents_of_text};

use meaning::{Answer, MOST_NODES, MOST_TEXT, NO_ROOM, NOT_TEXT, Refusal, TOO_NESTED, WRONG_SIZE};
use table_answers::{answered, done, refuse};
use text_nesting::{TextFault, read_text};
use text_number::{level_starts, number_nodes};

// The parent list of a text. The first walk finds all that may refuse the text, and how many nodes
// each level has; the second writes.
pub fn parents_of_text(text: &[u8], parents: &mut [u32]) -> Answer
    ensures { came_to result parents.new ≡ parents_of_text text.now parents.old }
{
    answered(try_parents_of_text(text, parents))
}

fn try_parents_of_text(text: &[u8], parents: &mut [u32]) -> Result<Answer, Refusal>
    ensures { came_to (answer_of result) parents.new ≡ parents_of_text text.now parents.old }
{
    if MOST_TEXT < text.len() {
        return refuse(WRONG_SIZE, 0);
    }
    let mut levels: [u32; 66] = [0; 66];
    match read_text(text, &mut levels) {
        Err(TextFault::Broken(byte)) => refuse(NOT_TEXT, byte as u32),
        Err(TextFault::Deeper(byte)) => refuse(TOO_NESTED, byte as u32),
        Ok(_) => {
            let nodes = level_starts(&mut levels);
            if MOST_NODES < nodes as usize {
                return refuse(WRONG_SIZE, 0);
            }
            if parents.len() < nodes as usize {
                return refuse(NO_ROOM, 0);
            }
            number_nodes(text, &mut levels, parents);
            Ok(done(nodes, 0))
        }
    }
}
