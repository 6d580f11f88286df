// The call `check_image`: n and m of an image that the whole check finds sound, or the refusal.
#![tactic(auto)]

ghost use Rattle.std.specs.Prelude.{◌≡◌};
ghost use Rattle.meaning.specs.Answers.{answer_of, came_to};
ghost use Rattle.calls.specs.Calls.{check_image};

use check_image::check;
use image_found::answer_of;
use meaning::{Answer, Refusal};
use table_answers::{answered, done};

// The public check: n and m of a sound image, or the refusal.
pub fn check_image(b: &[u8]) -> Answer
    ensures { came_to result tt ≡ check_image b.now }
{
    answered(try_check_image(b))
}

fn try_check_image(b: &[u8]) -> Result<Answer, Refusal>
    ensures { came_to (answer_of result) tt ≡ check_image b.now }
{
    let found = check(b);
    let Ok(image) = found else {
        return Ok(answer_of(found));
    };
    Ok(done(image.nodes, image.runs))
}
