// The call `text_of_parents`: the brackets of a parent list, as text.
#![tactic(auto)]

ghost use Rattle.std.specs.Prelude.{◌≡◌};
ghost use Rattle.meaning.specs.Answers.{answer_of, came_to};
ghost use Rattle.calls.specs.Calls.{text_of_parents};

use meaning::{Answer, NO_ROOM, Refusal, TOO_DEEP};
use parents_check::parents_refusal;
use table_answers::{answered, done, refuse};
use text_levels::find_levels;
use text_write::write_brackets;

// The text of a parent list: brackets only.
pub fn text_of_parents(parents: &[u32], text: &mut [u8]) -> Answer
    ensures { came_to result text.new ≡ text_of_parents parents.now text.old }
{
    answered(try_text_of_parents(parents, text))
}

fn try_text_of_parents(parents: &[u32], text: &mut [u8]) -> Result<Answer, Refusal>
    ensures { came_to (answer_of result) text.new ≡ text_of_parents parents.now text.old }
{
    parents_refusal(parents)?;
    let nodes = parents.len();
    let mut levels: [u32; 66] = [nodes as u32; 66];
    if let Some(deep) = find_levels(parents, &mut levels) {
        return refuse(TOO_DEEP, deep);
    }
    let bytes = 2 * nodes;
    if text.len() < bytes {
        return refuse(NO_ROOM, 0);
    }
    write_brackets(parents, &mut levels, text);
    Ok(done(bytes as u32, 0))
}
