// What a call answered and wrote, as text: a list by its entries, or, if long, by counts and sums.
#![tactic(auto)]

use meaning::Answer;
use std::io;

// The longest list that is shown entry by entry.
const MOST_SHOWN: usize = 300;

// How many of some numbers are 9, and two sums, made as those of a block are made of its words:
// they are shown for a long list.
#[derive(Clone, Copy, Default)]
pub struct Digest {
    pub nines: u32,
    pub s: u32,
    pub t: u32,
}

fn number(rt: &impl Print, x: u32) -> io::Result<()> {
    print!(rt; " {x}")
}

fn end(rt: &impl Print) -> io::Result<()> {
    rt.write_all(b"\n")
}

// Code, place and the two counts.
pub fn answered(rt: &impl Print, a: Answer) -> io::Result<()> {
    rt.write_all(b"  answer")?;
    number(rt, a.code)?;
    number(rt, a.place)?;
    number(rt, a.first)?;
    number(rt, a.second)?;
    end(rt)
}

pub fn summed(rt: &impl Print, d: Digest) -> io::Result<()> {
    rt.write_all(b"  nines and sums")?;
    number(rt, d.nines)?;
    number(rt, d.s)?;
    number(rt, d.t)?;
    end(rt)
}

fn after(d: Digest, x: u32) -> Digest {
    let s = d.s.wrapping_add(x);
    Digest {
        nines: d.nines.wrapping_add(u32::from(x == 9)),
        s,
        t: d.t.wrapping_add(s),
    }
}

// The numbers so far, and those of a further list.
pub fn after_words<T: Copy + Into<u32>>(before: Digest, list: &[T]) -> Digest {
    let mut d = before;
    for x in list {
        d = after(d, (*x).into());
    }
    d
}

fn shown<T: Copy + Into<u32>>(rt: &impl Print, name: &[u8], list: &[T]) -> io::Result<()> {
    if MOST_SHOWN < list.len() {
        return summed(rt, after_words(Digest::default(), list));
    }
    rt.write_all(name)?;
    for x in list {
        number(rt, (*x).into())?;
    }
    end(rt)
}

// A lent list of numbers, as it is now.
pub fn words(rt: &impl Print, list: &[u32]) -> io::Result<()> {
    shown(rt, b"  list", list)
}

// A lent buffer, as it is now.
pub fn bytes(rt: &impl Print, list: &[u8]) -> io::Result<()> {
    shown(rt, b"  bytes", list)
}

// How many entries of a list are at the same places of another.
pub fn equal(rt: &impl Print, a: &[u32], b: &[u32]) -> io::Result<()> {
    let mut k: u32 = 0;
    for (x, y) in a.iter().zip(b) {
        k = k.wrapping_add(u32::from(x == y));
    }
    rt.write_all(b"  equal")?;
    number(rt, k)?;
    end(rt)
}
