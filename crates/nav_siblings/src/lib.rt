// The siblings of a node of a checked image: next, previous, its rank, one some places away.
#![tactic(auto)]

ghost use Rattle.std.specs.Prelude.{◌≡◌, pos};
ghost use Rattle.meaning.specs.Image.{parents_in};
ghost use Rattle.meaning.specs.Questions.{answer, next_sibling, previous_sibling, rank, sibling};
ghost use Rattle.nav_strings.specs.Nodes.{IsNode};

use ask_argument::shifted;
use image_layout::Layout;
use nav_sibling_range::{run_before, run_last};
use nav_strings::bit_r1;

// The next sibling of node x: the next node, exactly if R1 has 0 at x.
pub fn next_sibling(b: &[u8], image: Layout, x: usize) -> u32
    requires { IsNode b.now image x }
    ensures { result ≡ answer (parents_in b.now) next_sibling x (pos 0) }
{
    if bit_r1(b, x) != 0 {
        return 0;
    }
    x as u32 + 1
}

// The previous sibling of node x: the node before, exactly if R1 has 0 there.
pub fn previous_sibling(b: &[u8], image: Layout, x: usize) -> u32
    requires { IsNode b.now image x }
    ensures { result ≡ answer (parents_in b.now) previous_sibling x (pos 0) }
{
    if x == 1 {
        return 0;
    }
    if bit_r1(b, x - 1) != 0 {
        return 0;
    }
    x as u32 - 1
}

// The rank of node x: its place among its siblings, from 1, and 0 for the root.
pub fn child_rank(b: &[u8], image: Layout, x: usize) -> u32
    requires { IsNode b.now image x }
    ensures { result ≡ answer (parents_in b.now) rank x (pos 0) }
{
    if x == 1 { // the root
        return 0; // has no rank
    }
    (x - run_before(b, image, x)) as u32
}

// The sibling of node x that is z places to the right, to the left where z is negative, 0 if there
// is none. Siblings end where a run of ones ends: to the left the run before theirs, to the right
// their own.
pub fn sibling_at(b: &[u8], image: Layout, x: usize, z: i64) -> u32
    requires { IsNode b.now image x }
    ensures { result ≡ answer (parents_in b.now) sibling x z }
{
    let y = shifted(x, z);
    if y < x {
        if y <= run_before(b, image, x) {
            return 0;
        }
        return y as u32;
    }
    if run_last(b, image, x) < y {
        return 0;
    }
    y as u32
}
