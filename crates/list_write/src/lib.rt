// A listing, written depth first by a function that calls itself on each child.
#![tactic(auto)]

ghost use Rattle.list_write.specs.Writing.{ToList, Listed};

use nav_strings::{bit_r0, bit_r1};

// Lists node x where `left` of the 64 levels are left, its own among them: writes x and its depth
// at the front of `out`, and then lists each of its children into what remains after the pairs
// already written. R0 begins at block `r0_block`. Answers how many numbers it wrote. The nodes of
// one depth are listed in the order of their numbers, so that the cursor of a depth finds the next
// one there: no rank or select.
pub fn list_node(
    b: &[u8],
    r0_block: usize,
    x: u32,
    left: u32,
    cursors: &mut [u32; 64],
    out: &mut [u32],
) -> usize
    requires { ToList b.now r0_block x left cursors.old out.old }
    ensures { Listed b.now x left cursors.old cursors.new out.old out.new result }
{
    out[0] = x;
    out[1] = 64 - left;
    let mut filled: usize = 2;
    let level = 65 - left as usize;
    let mut more = bit_r0(b, r0_block, x as usize);
    while more == 1 {
        let child = cursors[level] + 1;
        cursors[level] = child;
        filled += list_node(b, r0_block, child, left - 1, cursors, &mut out[filled..]);
        more = 1 - bit_r1(b, child as usize);
    }
    filled
}
