// Answers made: a refusal, code 0 with its counts, a row of the table by itself.
#![tactic(auto)]

ghost use Rattle.std.specs.Prelude.{Err, ◌≡◌};
ghost use Rattle.meaning.specs.Answers.{◌at◌when◌, alone, answer_of, counts};

use meaning::{Answer, Refusal};

pub fn refuse(code: u32, place: u32) -> Result<Answer, Refusal>
    ensures { result ≡ Err (record { code = code; place = place }) }
{
    Err(Refusal { code, place })
}

pub fn done(first: u32, second: u32) -> Answer
    ensures { result ≡ counts first second }
{
    Answer {
        code: 0,
        place: 0,
        first,
        second,
    }
}

// What a caller gets: the answer, or the refusal.
pub fn answered(made: Result<Answer, Refusal>) -> Answer
    ensures { result ≡ answer_of made }
{
    made.unwrap_or_else(Answer::from)
}

// A row of the table by itself.
pub fn row(holds: bool, code: u32, place: u32) -> Result<(), Refusal>
    ensures { result ≡ alone (code at place when holds) }
{
    if holds {
        return Err(Refusal { code, place });
    }
    Ok(())
}
