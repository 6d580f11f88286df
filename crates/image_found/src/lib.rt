// What the check of an image (`check_image`) finds, and the code and place that a caller gets.
#![tactic(auto)]

ghost use Rattle.std.specs.Prelude.{◌≡◌};
ghost use Rattle.image_found.specs.Checked.{answered, numbered};

use image_layout::Layout;
use meaning::{
    Answer, OTHER_VERSION, Refusal, WRONG_COUNTS, WRONG_HEADER, WRONG_SAMPLES, WRONG_STRINGS,
};
use table_answers::done;

// What is wrong with an image whose blocks all check and that no tree gives: another version, the
// header, the strings, the counts of earlier ones or unused payload, the samples. The last two have
// their lowest block.
#[derive(Clone, Copy)]
pub enum Fault {
    Version,
    Header,
    Strings,
    Counts(u32),
    Samples(u32),
}

// Document 02's code and place for what is wrong.
impl From<Fault> for Refusal {
    ghost from_gives = { λ fault r. r ≡ numbered fault };

    fn from(fault: Fault) -> Refusal {
        let (code, place) = match fault {
            Fault::Version => (OTHER_VERSION, 0),
            Fault::Header => (WRONG_HEADER, 0),
            // the first block of R1, whichever string is wrong
            Fault::Strings => (WRONG_STRINGS, 1),
            Fault::Counts(block) => (WRONG_COUNTS, block),
            Fault::Samples(block) => (WRONG_SAMPLES, block),
        };
        Refusal { code, place }
    }
}

// Document 01's numbers for what the check found.
pub fn answer_of(found: Result<Layout, Refusal>) -> Answer
    ensures { result ≡ answered found }
{
    match found {
        Ok(image) => done(image.nodes, image.runs),
        Err(refusal) => Answer::from(refusal),
    }
}
