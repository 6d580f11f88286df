// The call `join`: a tree added to a pack in a lent buffer.
#![tactic(auto)]

ghost use Rattle.std.specs.Prelude.{◌≡◌};
ghost use Rattle.meaning.specs.Answers.{answer_of, came_to};
ghost use Rattle.calls.specs.Calls.{join_pack};

use meaning::{Answer, NO_ROOM, NOT_PARENTS, Refusal, WRONG_SIZE};
use pack_check::check_pack;
use parents_check::bad_entry;
use string_write::write_string;
use table_answers::{answered, done, refuse};
use table_sizes::join_sizes_wrong;

// Adds a tree to the pack that the first bits of a lent buffer hold.
pub fn join(pack: &mut [u8], bits: usize, trees: usize, parents: &[u32]) -> Answer
    ensures { came_to result pack.new ≡ join_pack pack.old bits trees parents.now }
{
    answered(try_join(pack, bits, trees, parents))
}

fn try_join(pack: &mut [u8], bits: usize, trees: usize, parents: &[u32]) -> Result<Answer, Refusal>
    ensures { came_to (answer_of result) pack.new ≡ join_pack pack.old bits trees parents.now }
{
    if join_sizes_wrong(pack.len(), bits, trees, parents.len()) {
        return refuse(WRONG_SIZE, 0);
    }
    check_pack(pack, bits, trees)?;
    if let Some(bad) = bad_entry(parents) {
        return refuse(NOT_PARENTS, bad as u32);
    }
    let longer = bits + (2 * parents.len() + 1);
    if pack.len() < (longer + 7) / 8 {
        return refuse(NO_ROOM, 0);
    }
    write_string(pack, bits, parents);
    let found = trees as u32;
    Ok(done(longer as u32, found + 1))
}
