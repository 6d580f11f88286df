// The metres of an image, written block by block.
#![tactic(auto)]

ghost use Rattle.std.specs.Prelude.{◌≡◌, ◌+◌, ◌*◌, ◌≤◌, length};
ghost use Rattle.theory.specs.Bounds.{most_block};
ghost use Rattle.theory.specs.Stages.{word_blocks};
ghost use Rattle.seal_r1.specs.Passes.{Blank};
ghost use Rattle.seal_metres.specs.Metres.{MetresWritten};

use image_layout::PAYLOAD_WORDS;

// The metres, a word each, in the blocks from `block` on.
pub fn put_metres(image: &mut [u8], block: usize, metres: &[u32])
    requires block_le_most_block { block ≤ most_block }
    requires metres_len_bound { length metres.now ≤ 65535 }
    requires metres_in_bounds { 512 * (block + word_blocks (length metres.now)) ≤ length image.old }
    requires blank { Blank image.old block (word_blocks (length metres.now)) }
    ensures { MetresWritten image.old image.new block metres.now }
{
    for (j, words) in metres.chunks(PAYLOAD_WORDS).enumerate() {
        let at = 512 * (block + j);
        for (w, metre) in words.iter().enumerate() {
            image_words::put_word(image, at + 4 * w, *metre);
        }
    }
}
