// The whole check of an image: sizes, sums, then the stages.
#![tactic(auto)]

ghost use Rattle.std.specs.Prelude.{◌≡◌};
ghost use Rattle.image_found.specs.Checked.{checked};

use check_header::{read_header, version_known};
use check_stages::stages_pass;
use check_sums::wrong_block;
use fault_of_image::what_is_wrong;
use image_found::Fault;
use image_layout::Layout;
use meaning::{Refusal, WRONG_SIZE, WRONG_SUMS};
use table_sizes::image_size_wrong;

// The whole check, cheapest first: size, blocks, then the header, the strings and their samples.
pub fn check(b: &[u8]) -> Result<Layout, Refusal>
    ensures { result ≡ checked b.now }
{
    if image_size_wrong(b.len()) {
        return Err(Refusal {
            code: WRONG_SIZE,
            place: 0,
        });
    }
    let blocks = b.len() / 512;
    if let Some(block) = wrong_block(b, blocks) {
        return Err(Refusal {
            code: WRONG_SUMS,
            place: block as u32,
        });
    }
    if !version_known(b) {
        return Err(Refusal::from(Fault::Version));
    }
    let header = read_header(b, blocks);
    let Some(layout) = header else {
        return Err(Refusal::from(Fault::Header));
    };
    if stages_pass(b, layout) {
        return Ok(layout);
    }
    // only now is it worth a second pass, in the order of the codes
    Err(Refusal::from(what_is_wrong(b, layout)))
}
