// The bits of R1 and R0 of a checked image, and rank and select in them.
#![tactic(auto)]

ghost use Rattle.std.specs.Prelude.{Ok, ◌≡◌, ◌+◌, ◌≤◌};
ghost use Rattle.meaning.specs.Bytes.{value};
ghost use Rattle.theory.specs.Rank.{ones_left, position};
ghost use Rattle.theory.specs.Stages.{nodes_of, read_r1, read_r0, r0_block as r0_begins};
ghost use Rattle.theory.specs.ByStrings.{bit_of};
ghost use Rattle.image_found.specs.Checked.{checked, layout_in};
ghost use Rattle.nav_strings.specs.Nodes.{IsNode};

use image_layout::Layout;
use image_string::string_bit;
use nav_rank::rank;
use nav_select::select;

// Bit x, from 1, of R1: 1 if node x is the last of its siblings.
pub fn bit_r1(b: &[u8], x: usize) -> u8
    requires { IsNode b.now (layout_in b.now) x }
    ensures { result ≡ value (bit_of (read_r1 b.now) x) }
{
    string_bit(b, 1, x - 1)
}

// Bit x, from 1, of R0, which begins at block `r0_block`: 1 if node x has a child. It is handed
// that block and not the layout, since a listing would copy the layout for each of its nodes.
pub fn bit_r0(b: &[u8], r0_block: usize, x: usize) -> u8
    requires node { IsNode b.now (layout_in b.now) x }
    requires r0_block_value { r0_block ≡ r0_begins (nodes_of b.now) }
    ensures { result ≡ value (bit_of (read_r0 b.now) x) }
{
    string_bit(b, r0_block, x - 1)
}

// The ones of R1 left of bit x.
pub fn rank_r1(b: &[u8], image: Layout, x: usize) -> usize
    requires { IsNode b.now image x }
    ensures { result ≡ ones_left (read_r1 b.now) x }
{
    rank(b, 1, image.nodes as usize, image.runs as usize, x)
}

// The ones of R0 left of bit x. R0 has one bit more than there are nodes.
pub fn rank_r0(b: &[u8], image: Layout, x: usize) -> usize
    requires b_value { checked b.now ≡ Ok image }
    requires le_x { 1 ≤ x }
    requires x_bound { x ≤ image.nodes + 1 }
    ensures { result ≡ ones_left (read_r0 b.now) x }
{
    let n = image.nodes as usize + 1;
    rank(b, image.r0_block as usize, n, image.runs as usize, x)
}

// The position in R1 of its k-th one.
pub fn select_r1(b: &[u8], image: Layout, k: usize) -> usize
    requires b_value { checked b.now ≡ Ok image }
    requires le_k { 1 ≤ k }
    requires k_le_runs { k ≤ image.runs }
    ensures { result ≡ position (read_r1 b.now) k }
{
    select(
        b,
        1,
        image.nodes as usize,
        image.r1_samples as usize,
        image.runs as usize,
        k,
    )
}

// The position in R0 of its k-th one.
pub fn select_r0(b: &[u8], image: Layout, k: usize) -> usize
    requires b_value { checked b.now ≡ Ok image }
    requires le_k { 1 ≤ k }
    requires k_le_runs { k ≤ image.runs }
    ensures { result ≡ position (read_r0 b.now) k }
{
    select(
        b,
        image.r0_block as usize,
        image.nodes as usize + 1,
        image.r0_samples as usize,
        image.runs as usize,
        k,
    )
}
