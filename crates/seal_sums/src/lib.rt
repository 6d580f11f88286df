// The sums of the blocks of an image, written.
#![tactic(auto)]

ghost use Rattle.std.specs.Prelude.{◌≡◌, ◌++◌, ◌+◌, ◌*◌, ◌≤◌, length, drop};
ghost use Rattle.theory.specs.Bounds.{most_block};
ghost use Rattle.meaning.specs.Blocks.{sealed, sum_start};
ghost use Rattle.seal_sums.specs.Sealed.{with_sums, payloads_in};

use image_sums::block_sums;
use image_words::put_word;

// Writes the sums of block `i` after its payload.
pub fn seal_block(b: &mut [u8], i: usize)
    requires i_in_bounds { 512 * i + 512 ≤ length b.old }
    requires i_le_most_block { i ≤ most_block }
    ensures { b.new ≡ with_sums b.old i }
{
    let made = block_sums(b, 512 * i, i as u32);
    put_word(b, 512 * i + 504, made.s);
    put_word(b, 512 * i + 508, made.t);
}

// Writes the sums of the first `blocks` blocks.
pub fn seal_blocks(b: &mut [u8], blocks: usize)
    requires blocks_in_bounds { 512 * blocks ≤ length b.old }
    requires blocks_le_most_block { blocks ≤ most_block }
    ensures { b.new ≡ sealed sum_start (payloads_in b.old blocks) 0 ++ drop (512 * blocks) b.old }
{
    for i in 0..blocks {
        seal_block(b, i);
    }
}
