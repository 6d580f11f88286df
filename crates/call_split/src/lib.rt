// The call `split`: the first bit and the node count of each tree of a pack.
#![tactic(auto)]

ghost use Rattle.std.specs.Prelude.{◌≡◌};
ghost use Rattle.meaning.specs.Answers.{answer_of, came_to};
ghost use Rattle.calls.specs.Calls.{split_pack};

use meaning::{Answer, MOST_TREES, NO_ROOM, Refusal, WRONG_SIZE};
use pack_check::check_and_note;
use pack_scan::hand_over;
use table_answers::{answered, done, refuse};
use table_sizes::split_sizes_wrong;

// Splits a pack: the first bit and the node count of each tree.
pub fn split(
    bytes: &[u8],
    bits: usize,
    trees: usize,
    firsts: &mut [u32],
    counts: &mut [u32],
) -> Answer
    ensures { came_to result (firsts.new, counts.new) ≡ split_pack bytes.now bits trees firsts.old counts.old }
{
    answered(try_split(bytes, bits, trees, firsts, counts))
}

fn try_split(
    bytes: &[u8],
    bits: usize,
    trees: usize,
    firsts: &mut [u32],
    counts: &mut [u32],
) -> Result<Answer, Refusal>
    ensures { came_to (answer_of result) (firsts.new, counts.new) ≡ split_pack bytes.now bits trees firsts.old counts.old }
{
    if split_sizes_wrong(bytes.len(), bits, trees) {
        return refuse(WRONG_SIZE, 0);
    }
    // Nothing is written before everything is known to succeed.
    let mut found_firsts = [0u32; MOST_TREES];
    let mut found_counts = [0u32; MOST_TREES];
    check_and_note(bytes, bits, trees, &mut found_firsts, &mut found_counts)?;
    if firsts.len() < trees {
        return refuse(NO_ROOM, 0);
    }
    if counts.len() < trees {
        return refuse(NO_ROOM, 0);
    }
    hand_over(&found_firsts, trees, firsts);
    hand_over(&found_counts, trees, counts);
    let found = trees as u32;
    Ok(done(bits as u32, found))
}
