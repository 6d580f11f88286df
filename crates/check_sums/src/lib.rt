// The lowest block whose sums are wrong.
#![tactic(auto)]

ghost use Rattle.std.specs.Prelude.{◌≡◌, ◌+◌, ◌*◌, ◌≤◌, length};
ghost use Rattle.theory.specs.Bounds.{most_block};
ghost use Rattle.seal_sums.specs.Sealed.{right_at};
ghost use Rattle.check_sums.specs.Wrong.{wrong_if_any};

use image_sums::block_sums;
use image_words::word;

// Are the sums that block `i` holds those of its payload?
fn sums_right(b: &[u8], i: usize) -> bool
    requires i_in_bounds { 512 * i + 512 ≤ length b.now }
    requires i_le_most_block { i ≤ most_block }
    ensures { result ≡ right_at b.now i }
{
    let right = block_sums(b, 512 * i, i as u32);
    if word(b, 512 * i + 504) != right.s {
        return false;
    }
    word(b, 512 * i + 508) == right.t
}

// The lowest block whose s or t is wrong, if there is one.
pub fn wrong_block(b: &[u8], blocks: usize) -> Option<usize>
    requires b_len { length b.now ≡ 512 * blocks }
    requires blocks_le_most_block { blocks ≤ most_block }
    ensures { result ≡ wrong_if_any b.now }
{
    (0..blocks).find(|i| !sums_right(b, *i))
}
