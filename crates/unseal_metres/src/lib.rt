// The metres of an image, copied out of it block by block.
#![tactic(auto)]

ghost use Rattle.std.specs.Prelude.{◌≡◌, ◌+◌, ◌*◌, ◌≤◌, length};
ghost use Rattle.meaning.specs.Answers.{written};
ghost use Rattle.meaning.specs.Image.{word_blocks, numbers_in};
ghost use Rattle.theory.specs.Bounds.{most_block};

use image_layout::{PAYLOAD_WORDS, in_block, list_blocks};
use image_words::word;

// The n numbers whose blocks begin at block `block`.
pub fn write_metres(b: &[u8], block: usize, n: usize, out: &mut [u32])
    requires n_bound { n ≤ 65535 }
    requires block_le_most_block { block ≤ most_block }
    requires n_in_bounds { 512 * (block + word_blocks n) ≤ length b.now }
    requires n_in_bounds_2 { n ≤ length out.old }
    ensures { out.new ≡ written (numbers_in b.now block 0 n) out.old }
{
    for j in 0..list_blocks(n) {
        let at = 512 * (block + j);
        let first = PAYLOAD_WORDS * j;
        for w in 0..in_block(n - first) {
            out[first + w] = word(b, at + 4 * w);
        }
    }
}
