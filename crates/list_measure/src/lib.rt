// The size and the depth of a listing, found level by level before anything is written.
#![tactic(auto)]

ghost use Rattle.std.specs.Prelude.{◌≡◌, ◌-◌, length};
ghost use Rattle.meaning.specs.Image.{parents_in};
ghost use Rattle.meaning.specs.Listing.{listing};
ghost use Rattle.nav_strings.specs.Nodes.{IsNode};
ghost use Rattle.list_measure.specs.Levels.{below, size_of, WhereFits};
ghost use Rattle.list_measure.specs.Cursors.{CursorsReady};

use image_layout::Layout;
use nav_children::ones_before_zero;

// How many nodes node x and everything below it are, level by level, or the first of them at depth
// 64. The cursor of each level is left at the number before its first node.
pub fn measure(b: &[u8], image: Layout, x: usize, cursors: &mut [u32; 64]) -> Result<u32, u32>
    requires node { IsNode b.now image x }
    requires cursors_len { length cursors.old ≡ 64 }
    ensures value { result ≡ size_of (listing 65 (parents_in b.now) x 0) }
    ensures cursors_len_2 { length cursors.new ≡ 64 }
    ensures where_fits { WhereFits result (CursorsReady (below b.now) cursors.new (x - 1) x) }
{
    // the nodes of a level are those after `a`, up to `z`
    let mut a = x - 1;
    let mut z = x;
    let mut nodes: usize = 0;
    let mut depth: usize = 0;
    while a < z {
        if depth == 64 {
            return Err(a as u32 + 1);
        }
        cursors[depth] = a as u32;
        nodes += z - a;
        a = ones_before_zero(b, image, a + 1);
        z = ones_before_zero(b, image, z + 1);
        depth += 1;
    }
    Ok(nodes as u32)
}
