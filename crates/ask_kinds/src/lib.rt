// The eleven kinds of questions, answered from an image that the check found sound.
#![tactic(auto)]

ghost use Rattle.std.specs.Prelude.{◌≡◌};
ghost use Rattle.std.proofs.Math.Option.{some};
ghost use Rattle.meaning.specs.Image.{list_of, metres_in, parents_in};
ghost use Rattle.meaning.specs.Questions.{answer_kind};
ghost use Rattle.ask_allowed.specs.Kinds.{asked_by};
ghost use Rattle.nav_strings.specs.Nodes.{IsNode};

use ask_allowed::Kind;
use image_layout::Layout;
use nav_children::{child_number, degree_of, first_child, is_leaf, last_child, parent_of};
use nav_metres::metres_of;
use nav_siblings::{child_rank, next_sibling, previous_sibling, sibling_at};

// The answer to one question.
#[tactic(auto, unfolding(meaning::specs::Questions::answer))]
pub fn answer_kind(b: &[u8], image: Layout, kind: Kind, x: usize, z: i64) -> u32
    requires { IsNode b.now image x }
    ensures { result ≡ answer_kind (parents_in b.now) (list_of (metres_in b.now)) (some (asked_by kind)) x z }
{
    match kind {
        Kind::Parent => parent_of(b, image, x),
        Kind::FirstChild => first_child(b, image, x),
        Kind::LastChild => last_child(b, image, x),
        Kind::NextSibling => next_sibling(b, image, x),
        Kind::PreviousSibling => previous_sibling(b, image, x),
        Kind::Degree => degree_of(b, image, x),
        Kind::Rank => child_rank(b, image, x),
        Kind::Child => child_number(b, image, x, z),
        Kind::Leaf => is_leaf(b, image, x),
        Kind::Sibling => sibling_at(b, image, x, z),
        Kind::Metres => metres_of(b, image, x),
    }
}
