// What everything means (specs), and in code what a call answers, the codes and the limits.
#![tactic(auto)]

ghost use Rattle.std.specs.Prelude.{◌≡◌};
ghost use Rattle.meaning.specs.Answers.{refused_with};

// A code, the place that goes with it, and two counts. On refusal the counts are 0; on code 0 the
// place is 0.
#[repr(C)]
#[derive(Clone, Copy)]
pub struct Answer {
    pub code: u32,
    pub place: u32,
    pub first: u32,
    pub second: u32,
}

// Why a call is refused: a code and its place.
#[derive(Clone, Copy)]
pub struct Refusal {
    pub code: u32,
    pub place: u32,
}

impl From<Refusal> for Answer {
    ghost from_gives = { λ refusal a. a ≡ refused_with refusal.code refusal.place };

    fn from(refusal: Refusal) -> Answer {
        Answer {
            code: refusal.code,
            place: refusal.place,
            first: 0,
            second: 0,
        }
    }
}

// The table of codes, by code. 7 is retired: its number is never used again.
pub const NO_ROOM: u32 = 1;

pub const WRONG_SIZE: u32 = 2;

pub const NOT_PARENTS: u32 = 3;

pub const NOT_STRING: u32 = 4;

pub const LEFTOVER_SET: u32 = 5;

pub const WRONG_SUMS: u32 = 6;

pub const NOT_ALLOWED: u32 = 8;

pub const TOO_DEEP: u32 = 9;

pub const OTHER_TREES: u32 = 10;

pub const OTHER_VERSION: u32 = 11;

pub const WRONG_HEADER: u32 = 12;

pub const WRONG_STRINGS: u32 = 13;

pub const WRONG_COUNTS: u32 = 14;

pub const WRONG_SAMPLES: u32 = 15;

pub const NOT_TEXT: u32 = 16;

pub const TOO_NESTED: u32 = 17;

pub const MOST_NODES: usize = 65535;

pub const MOST_BITS: usize = 131071;

pub const MOST_TREES: usize = 256;

pub const MOST_QUESTIONS: usize = 256;

pub const FEWEST_BLOCKS: usize = 5;

pub const MOST_BLOCKS: usize = 574;

pub const MOST_TEXT: usize = 1048576;

// The versions of an image: the tree alone, or with the metres of each node.
pub const TREE_ALONE: u32 = 1;

pub const WITH_METRES: u32 = 2;

// `(` and `)`, by which a text opens and closes a node.
pub const OPENING: u8 = 40;

pub const CLOSING: u8 = 41;
