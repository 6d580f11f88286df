// The header of an image, the counts of its blocks, and zeros before all is written.
#![tactic(auto)]

ghost use Rattle.std.specs.Prelude.{◌≡◌, ◌++◌, ◌+◌, ◌*◌, ◌≤◌, length, drop, replicate};
ghost use Rattle.theory.specs.Bounds.{most_block};
ghost use Rattle.meaning.specs.Image.{string_blocks};
ghost use Rattle.seal_frame.specs.Passes.{CountsWritten, version_at, headed};

use image_layout::Layout;
use meaning::{TREE_ALONE, WITH_METRES};

// The first so many bytes become 0.
pub fn clear(image: &mut [u8], bytes: usize)
    requires { bytes ≤ length image.old }
    ensures { image.new ≡ replicate bytes 0 ++ drop bytes image.old }
{
    image[..bytes].fill(0);
}

// The counts of earlier ones in the blocks from `bits_block` on, which hold n bits.
pub fn put_counts(image: &mut [u8], bits_block: usize, n: usize)
    requires bits_block_le_most_block { bits_block ≤ most_block }
    requires n_bound { n ≤ 65536 }
    requires n_in_bounds { 512 * (bits_block + string_blocks n) ≤ length image.old }
    ensures { CountsWritten image.old image.new bits_block n }
{
    let mut c = 0;
    for j in 0..image_layout::string_blocks(n) {
        image_words::put_word(image, 512 * (bits_block + j), c);
        // of the last block all 4,000 bits too: its ones are in no count
        c += bits_count::ones_from(image, image_layout::bits_at(bits_block + j), 4000);
    }
}

// The version of an image whose metres are there.
fn version_at(metres: Option<u32>) -> u32
    ensures { result ≡ version_at metres }
{
    match metres {
        None => TREE_ALONE,
        Some(_) => WITH_METRES,
    }
}

// The four words of the header.
pub fn put_header(image: &mut [u8], layout: Layout)
    requires { 512 ≤ length image.old }
    ensures { image.new ≡ headed image.old (version_at layout.metres) layout.nodes layout.runs layout.blocks }
{
    let metres = layout.metres;
    image_words::put_word(image, 0, version_at(metres));
    image_words::put_word(image, 4, layout.nodes);
    image_words::put_word(image, 8, layout.runs);
    image_words::put_word(image, 12, layout.blocks);
}
