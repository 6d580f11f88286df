// The call `parents_of_string`: the parent list that a tree string gives.
#![tactic(auto)]

ghost use Rattle.std.specs.Prelude.{◌≡◌};
ghost use Rattle.meaning.specs.Answers.{answer_of, came_to};
ghost use Rattle.calls.specs.Calls.{parents_of_string};

use meaning::{Answer, LEFTOVER_SET, MOST_BITS, NO_ROOM, NOT_STRING, Refusal, WRONG_SIZE};
use string_end::tree_end;
use string_read::{leftover_set, write_parents};
use table_answers::{answered, done, refuse};

// The parent list of a string.
pub fn parents_of_string(bytes: &[u8], bits: usize, parents: &mut [u32]) -> Answer
    ensures { came_to result parents.new ≡ parents_of_string bytes.now bits parents.old }
{
    answered(try_parents_of_string(bytes, bits, parents))
}

fn try_parents_of_string(bytes: &[u8], bits: usize, parents: &mut [u32]) -> Result<Answer, Refusal>
    ensures { came_to (answer_of result) parents.new ≡ parents_of_string bytes.now bits parents.old }
{
    if MOST_BITS < bits {
        return refuse(WRONG_SIZE, 0);
    }
    if bytes.len() != (bits + 7) / 8 {
        return refuse(WRONG_SIZE, 0);
    }
    if leftover_set(bytes, bits) {
        return refuse(LEFTOVER_SET, 0);
    }
    let tree = match tree_end(bytes, bits, 0) {
        Ok(tree) => tree,
        Err(place) => return refuse(NOT_STRING, place as u32),
    };
    let next = tree.next;
    let size = tree.size;
    if next != bits {
        return refuse(NOT_STRING, (next + 1) as u32);
    }
    if parents.len() < size {
        return refuse(NO_ROOM, 0);
    }
    write_parents(bytes, bits, size, parents);
    Ok(done(size as u32, 0))
}
