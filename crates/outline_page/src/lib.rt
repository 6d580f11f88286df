// The text of an outline: the counts of an image and a line for each node, or the refusal.
#![tactic(auto)]

ghost use Rattle.std.specs.Prelude.{◌≡◌, ◌+◌, ◌≤◌, length};
ghost use Rattle.meaning.specs.Answers.{written};
ghost use Rattle.outline_text.specs.Text.{Writes};
ghost use Rattle.outline_page.specs.Outline.{outline_of};

use call_list::list;
use check_image::check;
use image_found::answer_of;
use meaning::{Answer, Refusal, WRONG_SIZE};
use outline_heading::{put_heading, put_refusal};
use outline_nodes::put_nodes;
use outline_text::Page;

// The most bytes that an outline is made of: 96 blocks.
const MOST_BYTES: usize = 49152;

// The most nodes of which each has its line.
const MOST_LISTED: u32 = 4000;

// What the program prints for the bytes that it read, onto a page; the listing goes into `pairs` on
// the way.
fn put_outline(page: &mut Page, b: &[u8], pairs: &mut [u32])
    requires pairs { 8000 ≤ length pairs.old }
    requires room { page.old.at + 98304 ≤ length page.old.text.now }
    ensures { Writes (outline_of b.now) page.old page.new }
{
    if MOST_BYTES < b.len() {
        let refusal = Refusal {
            code: WRONG_SIZE,
            place: 0,
        };
        return put_refusal(page, Answer::from(refusal));
    }
    let found = check(b);
    let Ok(image) = found else {
        return put_refusal(page, answer_of(found));
    };
    let nodes = image.nodes;
    if MOST_LISTED < nodes {
        return put_heading(page, image);
    }
    let listed = list(b, 1, pairs);
    if listed.code != 0 {
        return put_refusal(page, listed);
    }
    put_heading(page, image);
    let filled = 2 * nodes as usize;
    put_nodes(page, b, image, &pairs[..filled]);
}

// What the program prints for the bytes that it read, written into `text`; the listing goes into
// `pairs` on the way. Answers how many bytes that is.
pub fn outline(b: &[u8], pairs: &mut [u32], text: &mut [u8]) -> usize
    requires in_bounds { 8000 ≤ length pairs.old }
    requires in_bounds_2 { 98304 ≤ length text.old }
    ensures text_after { text.new ≡ written (outline_of b.now) text.old }
    ensures value { result ≡ length (outline_of b.now) }
{
    let mut page = Page::new(text);
    put_outline(&mut page, b, pairs);
    page.at
}
