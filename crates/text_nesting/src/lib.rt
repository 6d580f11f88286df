// A text read from left to right: a node holds a list of nodes and a list holds nodes, and the
// nodes of each level are counted on the way.
#![tactic(auto)]

ghost use Rattle.std.specs.Prelude.{◌≡◌, ◌≤◌, ◌<◌, length, get_or};
ghost use Rattle.meaning.specs.Text.{is_blank};
ghost use Rattle.text_nesting.specs.Nesting.{AfterBlanks, Ready, NodeRead, ListRead, TextRead, result_of};

use meaning::{CLOSING, OPENING};

// The bytes that mean nothing.
const SPACE: u8 = 32;

const LINE_FEED: u8 = 10;

const CARRIAGE_RETURN: u8 = 13;

// What stops a reading: the byte, from 1, at which the text cannot be continued, or which opens a
// level too many.
#[derive(Clone, Copy)]
pub enum TextFault {
    Broken(usize),
    Deeper(usize),
}

// What a node or a list comes to, as a result in one enum: that comes back in two registers, and a
// result with an enum inside through memory, which costs a third of the time of a wide tree.
#[derive(Clone, Copy)]
pub enum Found {
    Over(usize),
    Broken(usize),
    Deeper(usize),
}

// Whether byte c means nothing.
fn is_blank(c: u8) -> bool
    ensures { result ≡ is_blank c }
{
    c == SPACE || c == LINE_FEED || c == CARRIAGE_RETURN
}

// The first byte from number `from` on that is not blank, or the end of the text.
fn past_blanks(text: &[u8], from: usize) -> usize
    requires { from ≤ length text.now }
    ensures { AfterBlanks text.now from result }
{
    let mut at = from;
    // with a `for` a text takes an eighth to a half more of time, and misses the speed asked of it
    while at < text.len() {
        if !is_blank(text[at]) {
            return at;
        }
        at += 1;
    }
    at
}

// A node: byte number `at` is its opening bracket, and `left` of the 64 levels are left, its own
// among them. Gives the number of the byte after it.
#[cycle(list_node)]
fn node(text: &[u8], at: usize, left: u32, levels: &mut [u32; 66]) -> Found
    requires ready { Ready text.now at levels.old }
    requires at_in_bounds { at < length text.now }
    requires at_value { get_or text.now at 0 ≡ 40 }
    requires left_bound { left ≤ 64 }
    ensures { NodeRead text.now at left levels.old (result_of result) levels.new }
{
    if left == 0 {
        return Found::Deeper(at + 1);
    }
    let level = 65 - left as usize;
    levels[level] = levels[level] + 1;
    let found = list(text, at + 1, left - 1, levels);
    let Found::Over(end) = found else {
        return found;
    };
    if end < text.len() && text[end] == CLOSING {
        return Found::Over(end + 1);
    }
    Found::Broken(end + 1)
}

// The nodes that follow one another from byte number `from` on, inside a node. It loops over
// siblings and calls only for what is nested: 65,534 siblings take no stack.
#[cycle(list_node)]
fn list(text: &[u8], from: usize, left: u32, levels: &mut [u32; 66]) -> Found
    requires ready { Ready text.now from levels.old }
    requires left_bound { left ≤ 63 }
    ensures { ListRead text.now from left levels.old (result_of result) levels.new }
{
    let mut at = past_blanks(text, from);
    while at < text.len() && text[at] == OPENING {
        let found = node(text, at, left, levels);
        let Found::Over(end) = found else {
            return found;
        };
        at = past_blanks(text, end);
    }
    Found::Over(at)
}

// A whole text: blanks, one node and blanks. The nodes of each level are added to `levels`.
pub fn read_text(text: &[u8], levels: &mut [u32; 66]) -> Result<usize, TextFault>
    requires { Ready text.now 0 levels.old }
    ensures { TextRead text.now levels.old result levels.new }
{
    let first = past_blanks(text, 0);
    if first < text.len() && text[first] == OPENING {
        let end = match node(text, first, 64, levels) {
            Found::Over(end) => end,
            Found::Broken(byte) => return Err(TextFault::Broken(byte)),
            Found::Deeper(byte) => return Err(TextFault::Deeper(byte)),
        };
        let after = past_blanks(text, end);
        if after < text.len() {
            return Err(TextFault::Broken(after + 1));
        }
        return Ok(after);
    }
    Err(TextFault::Broken(first + 1))
}
