// Bytes of a tree string passed over, where no bit of theirs can end the tree.
#![tactic(auto)]

ghost use Rattle.std.specs.Prelude.{◌≡◌, ◌+◌, ◌-◌, ◌*◌, ◌/◌, ◌<◌, ◌≤◌, length};
ghost use Rattle.bits_word.specs.Little.{little};
ghost use Rattle.string_skip.specs.Strides.{ReadOn, Stands};

use bits_word::stored_word;
use string_pass::bytes_passed;

// Where the reading of a tree is before a byte: the bytes before it, the nodes that are pending
// besides the one that is read, and the nodes that are still allowed.
#[derive(Clone, Copy)]
pub struct ScanState {
    pub at: usize,
    pub pending: usize,
    pub room: usize,
}

// The bytes from `at` to `end`, fewer than eight, as a word: zeros follow them.
fn last_word(b: &[u8], at: usize, end: usize) -> u64
    requires at_le_end { at ≤ end }
    requires end_bound { end < at + 8 }
    requires end_in_bounds { end ≤ length b.now }
    ensures { result ≡ little b.now at (end - at) }
{
    let mut word: u64 = 0;
    for i in (at..end).rev() {
        word = word * 256 + u64::from(b[i]);
    }
    word
}

// Reads on in the last bytes, which are no word of their own: the zeros after them may be passed
// too, but they open no node.
fn skip_last(b: &[u8], n: usize, from: ScanState) -> ScanState
    requires stands { Stands n from }
    requires n_bound { n / 8 < from.at + 8 }
    requires n_bound_2 { n ≤ 131071 }
    requires n_bound_3 { n ≤ 8 * length b.now }
    ensures { ReadOn b.now n from result }
{
    let left = n / 8 - from.at;
    let passed = bytes_passed(last_word(b, from.at, n / 8), from.pending);
    if from.room < passed.opened {
        return from;
    }
    let mut bytes = left;
    if passed.bytes < left {
        bytes = passed.bytes;
    }
    ScanState {
        at: from.at + bytes,
        pending: from.pending + 2 * passed.opened - 8 * bytes,
        room: from.room - passed.opened,
    }
}

// Reads on by words of eight bytes and then in the bytes that are left, up to a byte that may close
// the tree or a word that may pass the limit.
pub fn skip_bytes(b: &[u8], n: usize, from: ScanState) -> ScanState
    requires stands { Stands n from }
    requires n_bound { n ≤ 131071 }
    requires n_bound_2 { n ≤ 8 * length b.now }
    ensures { ReadOn b.now n from result }
{
    let mut r = from;
    while r.at + 8 <= n / 8 {
        let passed = bytes_passed(stored_word(b, r.at), r.pending);
        if r.room < passed.opened {
            return r;
        }
        r = ScanState {
            at: r.at + passed.bytes,
            pending: r.pending + 2 * passed.opened - 8 * passed.bytes,
            room: r.room - passed.opened,
        };
        if passed.bytes < 8 {
            return r;
        }
    }
    if r.at < n / 8 {
        return skip_last(b, n, r);
    }
    r
}
