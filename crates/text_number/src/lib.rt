// The nodes of a text numbered level by level, and the parent of each written at its number.
#![tactic(auto)]

ghost use Rattle.std.specs.Prelude.{◌≡◌, ℕ, ◌≤◌, ◌<◌, get_or, length};
ghost use Rattle.meaning.specs.Brackets.{tree_in};
ghost use Rattle.meaning.specs.Text.{brackets_in};
ghost use Rattle.meaning.specs.Parents.{parents};
ghost use Rattle.meaning.specs.Answers.{written};
ghost use Rattle.theory.specs.Tables.{sum_to};
ghost use Rattle.text_number.specs.Numbering.{ToNumber};

use meaning::{CLOSING, OPENING};

// Puts in the place of each level's number of nodes how many are in the levels above it, which is
// the number before its first node. Answers how many nodes there are.
pub fn level_starts(levels: &mut [u32; 66]) -> u32
    requires levels_len { length levels.old ≡ 66 }
    requires by_index { (e : ℕ) → get_or levels.old e 0 ≤ 1048576 }
    ensures value { result ≡ sum_to levels.old 66 }
    ensures levels_len_2 { length levels.new ≡ 66 }
    ensures by_index_2 { (e : ℕ) → e < 66 → get_or levels.new e 0 ≡ sum_to levels.old e }
{
    let mut above: u32 = 0;
    for level in levels.iter_mut() {
        let nodes = *level;
        *level = above;
        above += nodes;
    }
    above
}

// Writes the parent of each node at the node's number. In depth-first order the nodes of a level
// come in the order of their numbers, so that the cursor of the level below the innermost open node
// is at the node that is opened next.
pub fn number_nodes(text: &[u8], levels: &mut [u32; 66], out: &mut [u32])
    requires { ToNumber text.now levels.old out.old }
    ensures { out.new ≡ written (parents (tree_in (brackets_in text.now))) out.old }
{
    let mut open: usize = 0;
    for c in text {
        if *c == OPENING {
            let before = levels[open + 1];
            out[before as usize] = levels[open];
            levels[open + 1] = before + 1;
            open += 1;
        } else if *c == CLOSING {
            open -= 1;
        }
    }
}
