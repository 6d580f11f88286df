// The nearest one on either side of a bit, in the 4,000 bits of a block, by words.
#![tactic(auto)]

ghost use Rattle.std.specs.Prelude.{◌+◌, ◌*◌, ◌≤◌, ◌<◌, length};
ghost use Rattle.bits_nearest.specs.Found.{LastOne, FirstOne};

use bits_word::whole_word;

// A word that has bit k among its own and, where it can, most of the bits before it: its first
// byte.
fn word_to(k: usize) -> usize
    requires { k < 4000 }
    ensures { (8 * result ≤ k) × (k < 8 * result + 64) × (result ≤ 492) }
{
    if k < 64 {
        return 0;
    }
    k / 8 - 7
}

// A word that has bit k among its own and, where it can, most of the bits after it: its first
// byte.
fn word_from(k: usize) -> usize
    requires { k < 4000 }
    ensures { (8 * result ≤ k) × (k < 8 * result + 64) × (result ≤ 492) }
{
    if 3936 < k {
        return 492;
    }
    k / 8
}

// How many of the first n bits from byte `at` on there are up to the last one among them, if they
// have one.
// It lends its bytes to no call that stays one: a list lent on is copied first, and the copy waits
// for the caller's stores.
pub fn last_one(b: &[u8], at: usize, n: usize) -> Option<usize>
    requires n_bound { n ≤ 4000 }
    requires at_in_bounds { at + 500 ≤ length b.now }
    ensures { LastOne b.now (8 * at) n result }
{
    let mut left = n;
    while 0 < left {
        let k = left - 1;
        let from = word_to(k);
        let near = whole_word(b, at + from) >> (63 - (k - 8 * from));
        if near != 0 {
            return Some(left - u64::trailing_zeros(near) as usize);
        }
        left = 8 * from;
    }
    None
}

// How many of the first 4000 bits from byte `at` on come before the first one that is not among the
// first n, if there is one.
pub fn first_one(b: &[u8], at: usize, n: usize) -> Option<usize>
    requires n_bound { n ≤ 4000 }
    requires at_in_bounds { at + 500 ≤ length b.now }
    ensures { FirstOne b.now (8 * at) n result }
{
    let mut next = n;
    while next < 4000 {
        let from = word_from(next);
        let near = whole_word(b, at + from) & (0xFFFFFFFFFFFFFFFF >> (next - 8 * from));
        if near != 0 {
            return Some(8 * from + u64::leading_zeros(near) as usize);
        }
        next = 8 * from + 64;
    }
    None
}
