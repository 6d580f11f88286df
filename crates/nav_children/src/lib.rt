// The parent and the children of a node of a checked image, and whether it is a leaf.
#![tactic(auto)]

ghost use Rattle.std.specs.Prelude.{Ok, ◌≡◌, ◌+◌, ◌≤◌, pos};
ghost use Rattle.meaning.specs.Bytes.{value};
ghost use Rattle.meaning.specs.Image.{parents_in};
ghost use Rattle.meaning.specs.Questions.{answer, parent, first_child, last_child, degree, child, leaf};
ghost use Rattle.theory.specs.Stages.{read_r1, read_r0};
ghost use Rattle.theory.specs.ByStrings.{bit_of, ones_before_by};
ghost use Rattle.image_found.specs.Checked.{checked};
ghost use Rattle.nav_strings.specs.Nodes.{IsNode};
ghost use Rattle.nav_children.specs.Children.{ChildrenAt};

use ask_argument::{in_range, shifted};
use image_layout::Layout;
use nav_sibling_range::run_last;
use nav_strings::{bit_r0, rank_r0, rank_r1, select_r0, select_r1};

// The children of a node with children: the nodes after number `after`, up to number `last`.
#[derive(Clone, Copy)]
struct Children {
    after: usize,
    last: usize,
}

// The parent of node x, 0 for the root: the position in R0 of that one whose number is the count of
// ones left of x in R1.
pub fn parent_of(b: &[u8], image: Layout, x: usize) -> u32
    requires { IsNode b.now image x }
    ensures { result ≡ answer (parents_in b.now) parent x (pos 0) }
{
    let k = rank_r1(b, image, x);
    if k == 0 {
        return 0;
    }
    select_r0(b, image, k) as u32
}

// Is node x a leaf, 1 or 0? Exactly if R0 has 0 at x.
pub fn is_leaf(b: &[u8], image: Layout, x: usize) -> u32
    requires { IsNode b.now image x }
    ensures { result ≡ answer (parents_in b.now) leaf x (pos 0) }
{
    1 - bit_r0(b, image.r0_block as usize, x) as u32
}

// The ones of the tree string before its zero number z: node x has its children after those before
// zero x, up to those before zero x + 1.
pub fn ones_before_zero(b: &[u8], image: Layout, z: usize) -> usize
    requires b_value { checked b.now ≡ Ok image }
    requires le_z { 1 ≤ z }
    requires z_bound { z ≤ image.nodes + 1 }
    ensures { result ≡ ones_before_by (read_r1 b.now) (read_r0 b.now) z }
{
    select_r1(b, image, 1 + rank_r0(b, image, z))
}

// The children of node x, which has one: both ends by one rank, since x ends a run of zeros, so
// that the ones before zero x + 1 end with the next run of siblings.
fn children_of(b: &[u8], image: Layout, x: usize) -> Children
    requires node { IsNode b.now image x }
    requires x_value { value (bit_of (read_r0 b.now) x) ≡ 1 }
    ensures { ChildrenAt b.now x result }
{
    let k = rank_r0(b, image, x);
    let after = select_r1(b, image, k + 1);
    let last = run_last(b, image, after + 1);
    Children { after, last }
}

// The first child of node x, 0 for a leaf. Not by `children_of`, which looks for the last one too.
pub fn first_child(b: &[u8], image: Layout, x: usize) -> u32
    requires { IsNode b.now image x }
    ensures { result ≡ answer (parents_in b.now) first_child x (pos 0) }
{
    if bit_r0(b, image.r0_block as usize, x) == 0 {
        return 0;
    }
    ones_before_zero(b, image, x) as u32 + 1
}

// The last child of node x, 0 for a leaf. Not by `children_of`, which looks for the first one too.
pub fn last_child(b: &[u8], image: Layout, x: usize) -> u32
    requires { IsNode b.now image x }
    ensures { result ≡ answer (parents_in b.now) last_child x (pos 0) }
{
    if bit_r0(b, image.r0_block as usize, x) == 0 {
        return 0;
    }
    ones_before_zero(b, image, x + 1) as u32
}

// How many children node x has.
pub fn degree_of(b: &[u8], image: Layout, x: usize) -> u32
    requires { IsNode b.now image x }
    ensures { result ≡ answer (parents_in b.now) degree x (pos 0) }
{
    if bit_r0(b, image.r0_block as usize, x) == 0 {
        return 0;
    }
    let children = children_of(b, image, x);
    (children.last - children.after) as u32
}

// Child number z of node x, 0 if there is none.
pub fn child_number(b: &[u8], image: Layout, x: usize, z: i64) -> u32
    requires { IsNode b.now image x }
    ensures { result ≡ answer (parents_in b.now) child x z }
{
    if bit_r0(b, image.r0_block as usize, x) == 0 {
        return 0;
    }
    let children = children_of(b, image, x);
    let after = children.after;
    in_range(after, children.last, shifted(after, z)) as u32
}
