// The lines of the nodes of an outline, written onto a page.
#![tactic(auto)]

ghost use Rattle.std.specs.Prelude.{Ok, ◌≡◌, pos};
ghost use Rattle.meaning.specs.Image.{parents_in, metres_in};
ghost use Rattle.meaning.specs.Questions.{answer, degree};
ghost use Rattle.image_found.specs.Checked.{checked};
ghost use Rattle.nav_strings.specs.Nodes.{IsNode};
ghost use Rattle.outline_text.specs.Text.{Room, Writes};
ghost use Rattle.outline_heading.specs.Lines.{metres_field, node_line, node_lines, Pairs};

use image_layout::Layout;
use nav_children::degree_of;
use nav_metres::{has_metres, metres_of};
use outline_text::Page;

// The metres of node x after a space, where there are any.
fn put_metres(page: &mut Page, b: &[u8], image: Layout, x: usize)
    requires node { IsNode b.now image x }
    requires room { Room (metres_field (metres_in b.now) x) page.old }
    ensures { Writes (metres_field (metres_in b.now) x) page.old page.new }
{
    if has_metres(image) {
        page.put_field(b" ", metres_of(b, image, x));
    }
}

// Number, depth, degree and, where there are any, the metres of node x.
fn put_node(page: &mut Page, b: &[u8], image: Layout, x: u32, depth: u32)
    requires node { IsNode b.now image x }
    requires room { Room (node_line (metres_in b.now) x depth (answer (parents_in b.now) degree x (pos 0))) page.old }
    ensures { Writes (node_line (metres_in b.now) x depth (answer (parents_in b.now) degree x (pos 0))) page.old page.new }
{
    let degree = degree_of(b, image, x as usize);
    page.put_decimal(x);
    page.put_field(b" ", depth);
    page.put_field(b" ", degree);
    put_metres(page, b, image, x as usize);
    page.put(b"\n");
}

// A line for each pair of node and depth.
pub fn put_nodes(page: &mut Page, b: &[u8], image: Layout, pairs: &[u32])
    requires b_value { checked b.now ≡ Ok image }
    requires pairs { Pairs image.nodes pairs.now }
    requires room { Room (node_lines (parents_in b.now) (metres_in b.now) pairs.now) page.old }
    ensures { Writes (node_lines (parents_in b.now) (metres_in b.now) pairs.now) page.old page.new }
{
    for k in 0..pairs.len() / 2 {
        put_node(page, b, image, pairs[2 * k], pairs[2 * k + 1]);
    }
}
