// The call `ask`: the whole check, which questions are allowed, and their answers.
#![tactic(auto)]

ghost use Rattle.std.specs.Prelude.{◌≡◌};
ghost use Rattle.meaning.specs.Answers.{answer_of, came_to};
ghost use Rattle.calls.specs.Calls.{ask_image};

use ask_allowed::lowest_not_allowed;
use ask_answers::write_answers;
use check_image::check;
use image_found::answer_of;
use meaning::{Answer, MOST_QUESTIONS, NO_ROOM, NOT_ALLOWED, Refusal, WRONG_SIZE};
use nav_metres::has_metres;
use table_answers::{answered, done, refuse};

// Asks an image: sizes, the whole check, what is asked, room, and then the answers.
pub fn ask(b: &[u8], questions: &[i32], answers: &mut [u32]) -> Answer
    ensures { came_to result answers.new ≡ ask_image b.now questions.now answers.old }
{
    answered(try_ask(b, questions, answers))
}

fn try_ask(b: &[u8], questions: &[i32], answers: &mut [u32]) -> Result<Answer, Refusal>
    ensures { came_to (answer_of result) answers.new ≡ ask_image b.now questions.now answers.old }
{
    let count = questions.len() / 3;
    if questions.len() % 3 != 0 {
        return refuse(WRONG_SIZE, 0);
    }
    if MOST_QUESTIONS < count {
        return refuse(WRONG_SIZE, 0);
    }
    let found = check(b);
    let Ok(image) = found else {
        return Ok(answer_of(found));
    };
    if let Some(bad) = lowest_not_allowed(questions, image.nodes, has_metres(image)) {
        return refuse(NOT_ALLOWED, bad);
    }
    if answers.len() < count {
        return refuse(NO_ROOM, 0);
    }
    write_answers(b, image, questions, answers);
    Ok(done(count as u32, 0))
}
