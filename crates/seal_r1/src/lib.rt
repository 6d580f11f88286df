// R1 and its samples, written into an image: a one where a run of ones ends.
#![tactic(auto)]

ghost use Rattle.std.specs.Prelude.{◌≡◌, ◌+◌, ◌*◌, ◌/◌, ◌≤◌, length};
ghost use Rattle.theory.specs.Bounds.{most_block};
ghost use Rattle.meaning.specs.Image.{string_blocks};
ghost use Rattle.meaning.specs.Parents.{bad_entry};
ghost use Rattle.meaning.specs.Strings.{ones};
ghost use Rattle.theory.specs.Stages.{blocks_of_samples};
ghost use Rattle.bits_byte.specs.Byte.{byte_bits};
ghost use Rattle.seal_r1_bits.specs.Listed.{runs_in};
ghost use Rattle.seal_r1.specs.Passes.{byte_marked, Blank, R1Written};

use image_layout::{bits_at, sample_at};

// Byte number b, from 0, of R1, which k ones come before. Of each 64 ones the first is a sample, in
// the blocks from `samples` on; a byte has too few for two. Answers the ones up to its end.
fn write_r1_byte(image: &mut [u8], samples: usize, b: usize, x: u8, k: usize) -> usize
    requires samples_le_most_block { samples ≤ most_block }
    requires b_bound { b ≤ 8191 }
    requires k_bound { k ≤ 65535 }
    requires b_in_bounds { 512 * (b / 500 + 2) ≤ length image.old }
    requires x_in_bounds { 512 * (samples + blocks_of_samples (k + ones (byte_bits x))) ≤ length image.old }
    ensures { (result ≡ k + ones (byte_bits x)) × (image.new ≡ byte_marked image.old samples b x k) }
{
    let at = bits_at(1 + b / 500) + b % 500;
    image[at] = x;
    let ones = bits_byte::ones_in_byte(x) as usize;
    let s = (k + 63) / 64;
    if k + ones <= 64 * s {
        return k + ones;
    }
    let place = bits_select_byte::select_in_byte(x, (64 * s + 1 - k) as u32);
    image_words::put_word(image, sample_at(samples, s), (8 * b) as u32 + place);
    k + ones
}

// R1 and its samples, a byte at a time: where an entry differs from the next, a run of ones ends.
// Answers how many.
pub fn write_r1(image: &mut [u8], ps: &[u32], samples: usize) -> usize
    requires in_bounds { 1 ≤ length ps.now }
    requires ps_len_bound { length ps.now ≤ 65535 }
    requires ps_value { bad_entry ps.now ≡ 0 }
    requires samples_le_most_block { samples ≤ most_block }
    requires ps_bound { 1 + string_blocks (length ps.now) ≤ samples }
    requires ps_in_bounds { 512 * (samples + blocks_of_samples (runs_in ps.now)) ≤ length image.old }
    requires blank { Blank image.old 1 (string_blocks (length ps.now)) }
    requires blank_2 { Blank image.old samples (blocks_of_samples (runs_in ps.now)) }
    ensures { (result ≡ runs_in ps.now) × R1Written image.old image.new ps.now samples }
{
    let mut k = 0;
    let mut b = 0;
    // a `for` over the bytes keeps a number more, and sealing took some hundredths longer with it
    while 8 * b < ps.len() {
        let x = seal_r1_bits::r1_byte(ps, 8 * b);
        k = write_r1_byte(image, samples, b, x, k);
        b += 1;
    }
    k
}
