// The image of a parent list and of its metres, if it has any: all payloads, and then the sums.
#![tactic(auto)]

ghost use Rattle.std.specs.Prelude.{◌≡◌, ◌+◌, ◌*◌, ◌≤◌, length};
ghost use Rattle.meaning.specs.Answers.{written};
ghost use Rattle.meaning.specs.Image.{version_of, metres_held, image_of_string};
ghost use Rattle.meaning.specs.Parents.{bad_entry};
ghost use Rattle.meaning.specs.Strings.{string_of};
ghost use Rattle.image_layout.specs.Layout.{layout_of};
ghost use Rattle.seal_r1_bits.specs.Listed.{runs_in};
ghost use Rattle.seal_frame.specs.Passes.{blocks_for, Prepared};
ghost use Rattle.seal_image.specs.Given.{given};

use image_layout::{Layout, list_blocks};
use seal_frame::{clear, put_counts, put_header};
use seal_metres::put_metres;

// All payloads of the image of a parent list. The list of metres is empty or has one for each node.
fn fill(image: &mut [u8], ps: &[u32], metres: &[u32], layout: Layout)
    requires in_bounds { 1 ≤ length ps.now }
    requires ps_len_bound { length ps.now ≤ 65535 }
    requires ps_value { bad_entry ps.now ≡ 0 }
    requires metres_len { length metres.now ≡ metres_held (version_of (given metres.now)) (length ps.now) }
    requires layout_value { layout ≡ layout_of (version_of (given metres.now)) (length ps.now) (runs_in ps.now) }
    requires ps_in_bounds { 512 * blocks_for (given metres.now) ps.now ≤ length image.old }
    ensures { Prepared image.old image.new (given metres.now) ps.now }
{
    let n = ps.len();
    clear(image, 512 * layout.blocks as usize);
    seal_r0::write_strings(image, ps, layout);
    put_counts(image, 1, n);
    put_counts(image, layout.r0_block as usize, n + 1);
    // the last blocks; none if the list is empty
    let metres_block = layout.blocks as usize - list_blocks(metres.len());
    put_metres(image, metres_block, metres);
    put_header(image, layout);
}

// The image of a parent list, which its layout tells the size of. The list of metres is empty or
// has one for each node.
pub fn write_image(image: &mut [u8], ps: &[u32], metres: &[u32], layout: Layout)
    requires in_bounds { 1 ≤ length ps.now }
    requires ps_len_bound { length ps.now ≤ 65535 }
    requires ps_value { bad_entry ps.now ≡ 0 }
    requires metres_len { length metres.now ≡ metres_held (version_of (given metres.now)) (length ps.now) }
    requires layout_value { layout ≡ layout_of (version_of (given metres.now)) (length ps.now) (runs_in ps.now) }
    requires ps_in_bounds { 512 * blocks_for (given metres.now) ps.now ≤ length image.old }
    ensures { image.new ≡ written (image_of_string (given metres.now) (string_of ps.now)) image.old }
{
    fill(image, ps, metres, layout);
    seal_sums::seal_blocks(image, layout.blocks as usize);
}
