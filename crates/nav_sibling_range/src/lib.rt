// Where a run of siblings begins and ends: the ones of R1 on either side of a node.
#![tactic(auto)]

ghost use Rattle.std.specs.Prelude.{Ok, ◌≡◌, ◌+◌, ◌≤◌};
ghost use Rattle.theory.specs.Rank.{ones_left, position};
ghost use Rattle.theory.specs.Stages.{read_r1};
ghost use Rattle.image_found.specs.Checked.{checked};
ghost use Rattle.nav_strings.specs.Nodes.{IsNode};

use bits_nearest::{first_one, last_one};
use image_layout::{Layout, bits_at};
use nav_strings::{rank_r1, select_r1};

// The position of one number k of R1, 0 for number 0: the last node of that run of siblings.
fn run_end(b: &[u8], image: Layout, k: usize) -> usize
    requires b_value { checked b.now ≡ Ok image }
    requires k_le_runs { k ≤ image.runs }
    ensures { result ≡ position (read_r1 b.now) k }
{
    if k == 0 {
        return 0;
    }
    select_r1(b, image, k)
}

// The last node before the siblings of node x, 0 if there is none, by rank and select.
fn far_before(b: &[u8], image: Layout, x: usize) -> usize
    requires { IsNode b.now image x }
    ensures { result ≡ position (read_r1 b.now) (ones_left (read_r1 b.now) x) }
{
    run_end(b, image, rank_r1(b, image, x))
}

// The last node before the siblings of node x, 0 if there is none: the last one of R1 left of x,
// which is nearly always in the block of x.
pub fn run_before(b: &[u8], image: Layout, x: usize) -> usize
    requires { IsNode b.now image x }
    ensures { result ≡ position (read_r1 b.now) (ones_left (read_r1 b.now) x) }
{
    let i = x - 1;
    let n = i % 4000;
    let Some(found) = last_one(b, bits_at(1 + i / 4000), n) else {
        return far_before(b, image, x);
    };
    i - n + found
}

// The last of the siblings of node x, by rank and select.
fn far_last(b: &[u8], image: Layout, x: usize) -> usize
    requires { IsNode b.now image x }
    ensures { result ≡ position (read_r1 b.now) (ones_left (read_r1 b.now) x + 1) }
{
    select_r1(b, image, rank_r1(b, image, x) + 1)
}

// The last of the siblings of node x: the first one of R1 that is not left of x, which is nearly
// always in the block of x. There is one, since R1 ends with a one.
pub fn run_last(b: &[u8], image: Layout, x: usize) -> usize
    requires { IsNode b.now image x }
    ensures { result ≡ position (read_r1 b.now) (ones_left (read_r1 b.now) x + 1) }
{
    let i = x - 1;
    let n = i % 4000;
    let Some(found) = first_one(b, bits_at(1 + i / 4000), n) else {
        return far_last(b, image, x);
    };
    x - n + found
}
