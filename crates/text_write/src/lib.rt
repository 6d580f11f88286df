// The brackets of a tree written from its parent list, by one cursor a level.
#![tactic(auto)]

ghost use Rattle.std.specs.Prelude.{◌≡◌};
ghost use Rattle.meaning.specs.Brackets.{bracketing};
ghost use Rattle.meaning.specs.Text.{text_of};
ghost use Rattle.meaning.specs.Answers.{written};
ghost use Rattle.text_write.specs.Writing.{is_child, ToWrite};

use meaning::{CLOSING, OPENING};

// Whether the node after number `before` is there, and a child of node x.
fn is_child(parents: &[u32], before: usize, x: u32) -> bool
    ensures { result ≡ is_child parents.now before x }
{
    before < parents.len() && parents[before] == x
}

// Writes the brackets: where the next node of the level below the innermost open node is its child,
// that one is opened, and else the open node is closed.
pub fn write_brackets(parents: &[u32], levels: &mut [u32; 66], text: &mut [u8])
    requires { ToWrite parents.now levels.old text.old }
    ensures { text.new ≡ written (text_of (bracketing parents.now)) text.old }
{
    let mut open: usize = 0;
    for at in 0..2 * parents.len() {
        let before = levels[open + 1];
        if is_child(parents, before as usize, levels[open]) {
            text[at] = OPENING;
            levels[open + 1] = before + 1;
            open += 1;
        } else {
            text[at] = CLOSING;
            open -= 1;
        }
    }
}
