// R0 and its samples, written into an image beside R1 and its samples.
#![tactic(auto)]

ghost use Rattle.std.specs.Prelude.{◌≡◌, ◌+◌, ◌*◌, ◌/◌, ◌≤◌, length};
ghost use Rattle.theory.specs.Bounds.{most_block};
ghost use Rattle.meaning.specs.Image.{string_blocks};
ghost use Rattle.meaning.specs.Parents.{bad_entry};
ghost use Rattle.theory.specs.Stages.{blocks_of_samples};
ghost use Rattle.seal_r1_bits.specs.Listed.{runs_in};
ghost use Rattle.seal_r1.specs.Passes.{byte_place, Blank, R1SamplesKnown, R0Written, R0SamplesWritten, RoomForStrings, StringsWritten};

use image_layout::{Layout, bits_at, sample_at};
use seal_r1::write_r1;

// Where byte number c of a string is whose blocks begin at block `bits_block`.
fn byte_place(bits_block: usize, c: usize) -> usize
    requires bits_block_le_most_block { bits_block ≤ most_block }
    requires c_bound { c ≤ 70000 }
    ensures { result ≡ byte_place bits_block c }
{
    bits_at(bits_block + c / 500) + c % 500
}

// R0: before each entry but the first a run of zeros ends, and one after the last. The byte of the
// entries at hand is in `byte`, and not yet in the image.
fn write_r0(image: &mut [u8], ps: &[u32], zeros: usize)
    requires in_bounds { 1 ≤ length ps.now }
    requires ps_len_bound { length ps.now ≤ 65535 }
    requires ps_value { bad_entry ps.now ≡ 0 }
    requires zeros_le_most_block { zeros ≤ most_block }
    requires ps_in_bounds { 512 * (zeros + string_blocks (length ps.now + 1)) ≤ length image.old }
    requires blank { Blank image.old zeros (string_blocks (length ps.now + 1)) }
    ensures { R0Written image.old image.new ps.now zeros }
{
    let mut c = 0;
    let mut byte: u8 = 0;
    for i in 1..ps.len() {
        let x = ps[i] as usize - 1;
        if x / 8 != c {
            let at = byte_place(zeros, c);
            image[at] = byte;
            c = x / 8;
            let to = byte_place(zeros, c);
            byte = image[to];
        }
        byte |= 0x80 >> (x % 8);
    }
    let at = byte_place(zeros, c);
    image[at] = byte;
    let n = ps.len();
    bits_byte::set_bit(image, 8 * bits_at(zeros + n / 4000) + n % 4000);
}

// The samples of R0 of a list with m runs: the run of zeros with the same number as a run of ones
// ends before the entry after it.
fn write_r0_samples(image: &mut [u8], ps: &[u32], r1_samples: usize, r0_samples: usize, m: usize)
    requires in_bounds { 1 ≤ length ps.now }
    requires ps_len_bound { length ps.now ≤ 65535 }
    requires ps_value { bad_entry ps.now ≡ 0 }
    requires m_value { m ≡ runs_in ps.now }
    requires r0_samples_le_most_block { r0_samples ≤ most_block }
    requires m_bound { r1_samples + blocks_of_samples m ≤ r0_samples }
    requires m_in_bounds { 512 * (r0_samples + blocks_of_samples m) ≤ length image.old }
    requires r1samples_known { R1SamplesKnown image.old ps.now r1_samples }
    requires blank { Blank image.old r0_samples (blocks_of_samples m) }
    ensures { R0SamplesWritten image.old image.new ps.now r0_samples }
{
    for s in 0..m.div_ceil(64) {
        let place = image_words::word(image, sample_at(r1_samples, s)) as usize;
        let next = seal_r1_bits::next_entry(ps, place - 1);
        image_words::put_word(image, sample_at(r0_samples, s), next as u32);
    }
}

// The bits and samples of both strings, at the blocks of the layout.
pub fn write_strings(image: &mut [u8], ps: &[u32], layout: Layout)
    requires { RoomForStrings image.old ps.now layout.r0_block layout.r1_samples layout.r0_samples }
    ensures { StringsWritten image.old image.new ps.now }
{
    let r1_samples = layout.r1_samples as usize;
    let r0_samples = layout.r0_samples as usize;
    let m = write_r1(image, ps, r1_samples);
    write_r0(image, ps, layout.r0_block as usize);
    write_r0_samples(image, ps, r1_samples, r0_samples, m);
}
