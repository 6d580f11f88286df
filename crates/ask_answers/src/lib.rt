// The answers to a list of questions, each of which is allowed.
#![tactic(auto)]

ghost use Rattle.std.specs.Prelude.{Ok, ◌≡◌, true, map, ◌+◌, ◌*◌, ◌≤◌, length};
ghost use Rattle.meaning.specs.Answers.{written};
ghost use Rattle.meaning.specs.Image.{list_of, metres_in, parents_in, present};
ghost use Rattle.meaning.specs.Questions.{allowed, answer_to, not_allowed, questions};
ghost use Rattle.image_found.specs.Checked.{checked};
ghost use Rattle.ask_allowed.specs.Asked.{question_at};

use ask_allowed::{Kind, number};
use ask_kinds::answer_kind;
use image_layout::Layout;

// The answer to question number i, from 0, which is allowed.
#[tactic(auto, unfolding(meaning::specs::Questions::allowed, meaning::specs::Questions::answer_to))]
fn answer_at(b: &[u8], image: Layout, asked: &[i32], i: usize) -> u32
    requires b_value { checked b.now ≡ Ok image }
    requires i_in_bounds { 3 * i + 3 ≤ length asked.now }
    requires i_value { allowed image.nodes (present (metres_in b.now)) (question_at asked.now i) ≡ true }
    ensures { result ≡ answer_to (parents_in b.now) (list_of (metres_in b.now)) (question_at asked.now i) }
{
    let Ok(kind) = Kind::try_from(asked[3 * i]) else {
        unreachable!();
    };
    let node = number(i64::from(asked[3 * i + 1]));
    answer_kind(b, image, kind, node as usize, i64::from(asked[3 * i + 2]))
}

// Writes the answers to the questions, each of which is allowed.
pub fn write_answers(b: &[u8], image: Layout, asked: &[i32], answers: &mut [u32])
    requires b_value { checked b.now ≡ Ok image }
    requires asked_value { not_allowed image.nodes (present (metres_in b.now)) (questions asked.now) 0 ≡ 0 }
    requires asked_in_bounds { length (questions asked.now) ≤ length answers.old }
    ensures { answers.new ≡ written (map (answer_to (parents_in b.now) (list_of (metres_in b.now))) (questions asked.now)) answers.old }
{
    for k in 0..asked.len() / 3 {
        answers[k] = answer_at(b, image, asked, k);
    }
}
