// The kinds of questions, and which questions are allowed.
#![tactic(auto)]

ghost use Rattle.std.specs.Prelude.{◌≡◌, ◌+◌, ◌*◌, ◌≤◌, length};
ghost use Rattle.std.proofs.Math.Option.{some};
ghost use Rattle.meaning.specs.Questions.{allowed, allowed_kind, not_allowed, number_of, questions};
ghost use Rattle.theory.specs.Places.{place_of};
ghost use Rattle.ask_allowed.specs.Asked.{question_at};
ghost use Rattle.ask_allowed.specs.Kinds.{Decodes, asked_by};

// What a question asks, kinds 1 to 11 in order.
#[derive(Clone, Copy, Debug, PartialEq, Eq)]
pub enum Kind {
    Parent,
    FirstChild,
    LastChild,
    NextSibling,
    PreviousSibling,
    Degree,
    Rank,
    Child,
    Leaf,
    Sibling,
    Metres,
}

// A number that is no kind.
#[derive(Clone, Copy, Debug, PartialEq, Eq)]
pub struct NoKind(pub i32);

impl TryFrom<i32> for Kind {
    type Error = NoKind;

    ghost try_from_gives = { Decodes };

    fn try_from(number: i32) -> Result<Self, NoKind> {
        match number {
            1 => Ok(Kind::Parent),
            2 => Ok(Kind::FirstChild),
            3 => Ok(Kind::LastChild),
            4 => Ok(Kind::NextSibling),
            5 => Ok(Kind::PreviousSibling),
            6 => Ok(Kind::Degree),
            7 => Ok(Kind::Rank),
            8 => Ok(Kind::Child),
            9 => Ok(Kind::Leaf),
            10 => Ok(Kind::Sibling),
            11 => Ok(Kind::Metres),
            _ => Err(NoKind(number)),
        }
    }
}

// A node: no number below 0 is one, and nor is 0.
pub fn number(x: i64) -> u64
    ensures { result ≡ number_of x }
{
    u64::try_from(x).unwrap_or(0)
}

// A child's and a sibling's place is any number, and the other kinds take 0; metres are asked for
// only where there are some.
fn argument_allowed(kind: Kind, z: i64, metres: bool) -> bool
    ensures { result ≡ allowed_kind metres (some (asked_by kind)) z }
{
    matches!(kind, Kind::Child | Kind::Sibling) || z == 0 && (metres || kind != Kind::Metres)
}

// Is question number i, from 0, allowed in a tree of n nodes, with metres or without?
#[tactic(auto, unfolding(meaning::specs::Questions::allowed))]
fn allowed_at(asked: &[i32], i: usize, n: u32, metres: bool) -> bool
    requires { 3 * i + 3 ≤ length asked.now }
    ensures { result ≡ allowed n metres (question_at asked.now i) }
{
    let node = number(i64::from(asked[3 * i + 1]));
    if node < 1 {
        return false;
    }
    if u64::from(n) < node {
        return false;
    }
    let Ok(kind) = Kind::try_from(asked[3 * i]) else {
        return false;
    };
    argument_allowed(kind, i64::from(asked[3 * i + 2]), metres)
}

// The lowest question, from 1, that is not allowed.
pub fn lowest_not_allowed(asked: &[i32], n: u32, metres: bool) -> Option<u32>
    requires { length asked.now ≤ 3 * 256 }
    ensures { result ≡ place_of (not_allowed n metres (questions asked.now) 0) }
{
    for i in 0..asked.len() / 3 {
        if !allowed_at(asked, i, n, metres) {
            return Some((i + 1) as u32);
        }
    }
    None
}
