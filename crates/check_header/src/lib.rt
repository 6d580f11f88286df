// The header, block 0: the version; then n, m, the number of blocks, zeros in the reserved words.
#![tactic(auto)]

ghost use Rattle.std.specs.Prelude.{◌≡◌, ◌*◌, ◌≤◌, length};
ghost use Rattle.theory.specs.Bounds.{most_block};
ghost use Rattle.theory.specs.Stages.{version_in, Known};
ghost use Rattle.image_string.specs.Decides.{Decides};
ghost use Rattle.check_header.specs.Told.{RunsFit, HeaderIs};

use image_layout::{Layout, layout_of};
use image_string::all_zero;
use image_words::word;
use meaning::{MOST_NODES, TREE_ALONE, WITH_METRES};

// Is the image of a version that is known here?
pub fn version_known(b: &[u8]) -> bool
    requires { 4 ≤ length b.now }
    ensures { Decides result (Known (version_in b.now)) }
{
    let version = word(b, 0);
    if version < TREE_ALONE {
        return false;
    }
    if WITH_METRES < version {
        return false;
    }
    true
}

// Has a tree of n nodes m runs of ones? One node has one; of more nodes the first and the last bit
// of R1 end two.
fn runs_fit(n: usize, m: usize) -> bool
    requires { 1 ≤ n }
    ensures { Decides result (RunsFit n m) }
{
    if n < m {
        return false;
    }
    if 2 <= m {
        return true;
    }
    if 2 <= n {
        return false;
    }
    m == 1
}

// Reads block 0 of an image of so many blocks after its version: the layout, if n, m and the number
// of blocks are right, and zeros come after them.
pub fn read_header(b: &[u8], blocks: usize) -> Option<Layout>
    requires b_len { length b.now ≡ 512 * blocks }
    requires le_blocks { 1 ≤ blocks }
    requires blocks_le_most_block { blocks ≤ most_block }
    ensures { HeaderIs result b.now }
{
    let n = word(b, 4) as usize;
    let m = word(b, 8) as usize;
    if n < 1 {
        return None;
    }
    if MOST_NODES < n {
        return None;
    }
    if !runs_fit(n, m) {
        return None;
    }
    if word(b, 12) as usize != blocks {
        return None;
    }
    let layout = layout_of(word(b, 0), n, m);
    if layout.blocks as usize != blocks {
        return None;
    }
    // words 4 to 125 are reserved
    if !all_zero(b, 16, 504) {
        return None;
    }
    Some(layout)
}
