// The sums s and t of a block: one loop of wrapping additions over its 126 words.
#![tactic(auto)]

ghost use Rattle.std.specs.Prelude.{◌≡◌, ◌+◌, ◌≤◌, length, take, drop};
ghost use Rattle.meaning.specs.Blocks.{sums, words};
ghost use Rattle.image_sums.specs.Pair.{sums_of};

use image_words::word;

// The two sums of a block.
#[derive(Clone, Copy)]
pub struct Sums {
    pub s: u32,
    pub t: u32,
}

// The sums of the 126 words from byte `at` on, s from `start` and t from 0: each word is added to
// s, and then s to t.
// The words are counted by their bytes, so that a word is found by one addition. A `for` over the
// 126 words is unrolled half as far, and images with metres are checked in a tenth more of time.
pub fn block_sums(b: &[u8], at: usize, start: u32) -> Sums
    requires { at + 504 ≤ length b.now }
    ensures { sums_of result ≡ sums (words (take 504 (drop at b.now))) start 0 }
{
    let mut s = start;
    let mut t: u32 = 0;
    let mut i = 0;
    while i < 504 {
        s = s.wrapping_add(word(b, at + i));
        t = t.wrapping_add(s);
        i += 4;
    }
    Sums { s, t }
}
