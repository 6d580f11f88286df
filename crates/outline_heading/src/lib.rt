// The heading of an outline, or a refusal, written onto a page.
#![tactic(auto)]

ghost use Rattle.outline_text.specs.Text.{Room, Writes};
ghost use Rattle.outline_heading.specs.Lines.{heading, refusal};

use image_layout::Layout;
use meaning::Answer;
use outline_text::Page;

// n N m M blocks B
pub fn put_heading(page: &mut Page, image: Layout)
    requires { Room (heading image.nodes image.runs image.blocks) page.old }
    ensures { Writes (heading image.nodes image.runs image.blocks) page.old page.new }
{
    page.put_field(b"n ", image.nodes);
    page.put_field(b" m ", image.runs);
    page.put_field(b" blocks ", image.blocks);
    page.put(b"\n");
}

// refused CODE PLACE
pub fn put_refusal(page: &mut Page, a: Answer)
    requires { Room (refusal a) page.old }
    ensures { Writes (refusal a) page.old page.new }
{
    page.put_field(b"refused ", a.code);
    page.put_field(b" ", a.place);
    page.put(b"\n");
}
