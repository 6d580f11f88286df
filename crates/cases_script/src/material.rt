// What the calls of a script are made on: a tree, metres of its nodes, and bytes in hand (a string,
// a pack, an image or a text).
use crate::words::Word;
use crate::{number, put_bytes, room, size};

// How much greater the parent of a node is than that of the node before it, in the mixed tree: less
// than 1 on the average, so that the tree is not deep.
const STEPS: [u32; 8] = [0, 0, 0, 0, 1, 0, 2, 3];

fn low(x: usize) -> u32 {
    (x % 0x100000000) as u32
}

// The parent of the node that has i nodes before it, in a tree of so many branches side by side
// below the root. Of the nodes with `both` or more before them there is one to a level: only the
// last branch goes on.
fn branched(i: u32, branches: u32, both: u32) -> u32 {
    if both <= i {
        return i;
    }
    if branches < i {
        return (i - branches).wrapping_add(1);
    }
    i.min(1)
}

// The parent of the node that has i nodes before it, in the mixed tree, where p is the parent of
// the node before: first a path, then steps by chance, one node with some thousand children, and a
// leap over nodes that get none.
fn mixed(i: u32, p: u32, seed: usize) -> u32 {
    if i <= 20 {
        return i;
    }
    if i == 4601 {
        return 3950;
    }
    if 3500 < i {
        if i <= 4500 {
            return p;
        }
    }
    p.wrapping_add(STEPS[seed % 8]).min(i)
}

// The metres of the node that has i nodes before it, where p is those of the node before.
fn risen(i: usize, p: u32, first: u32, step: u32) -> u32 {
    if i == 0 { first } else { p.wrapping_add(step) }
}

// The parent or the metres of the node that has i nodes before it, where p is that of the node
// before, in the tree or the metres that the line asks for:
// parents PARENT..         these parents
// grow HANDLE              a path of so many nodes, whose last has all later nodes as children:
//                          a star where there is one
// branches COUNT BOTH      branches side by side
// mixed                    the mixed tree
// metres NUMBER..          these metres
// rise FIRST STEP          metres that grow by as much from each node to the next, modulo 2^32
fn planted(word: Word, numbers: &[u32], i: usize, p: u32, seed: usize) -> u32 {
    match word {
        Word::Parents | Word::Metres => number(numbers, i),
        Word::Grow => low(i).min(number(numbers, 0)),
        Word::Branches => branched(low(i), number(numbers, 0), number(numbers, 1)),
        Word::Mixed => mixed(low(i), p, seed),
        _ => risen(i, p, number(numbers, 0), number(numbers, 1)),
    }
}

fn stirred(seed: usize) -> usize {
    (seed % 65537 * 75 + 74) % 65537
}

// Fills the whole list: its first entries are the smaller trees of the same kind, and their metres.
pub fn plant(word: Word, numbers: &[u32], list: &mut [u32]) {
    let mut p: u32 = 0;
    let mut seed: usize = 1;
    for (i, entry) in list.iter_mut().enumerate() {
        p = planted(word, numbers, i, p, seed);
        *entry = p;
        seed = stirred(seed);
    }
}

fn hold(numbers: &[u32], bytes: &mut [u8]) {
    bytes.fill(9);
    put_bytes(numbers, bytes);
}

fn clear(numbers: &[u32], bytes: &mut [u8]) {
    let end = room(numbers, 1, bytes.len());
    bytes[..end].fill(9);
    bytes[end..].fill(0);
}

fn flip(numbers: &[u32], bytes: &mut [u8]) {
    if let Some(byte) = bytes.get_mut(size(numbers, 0)) {
        *byte ^= (number(numbers, 1) % 256) as u8;
    }
}

fn reseal(numbers: &[u32], bytes: &mut [u8]) {
    let most = bytes.len() / 512;
    let n = room(numbers, 0, most);
    if n <= 574 {
        seal_sums::seal_blocks(bytes, n);
    }
}

fn pad(numbers: &[u32], bytes: &mut [u8]) {
    let end = room(numbers, 0, bytes.len());
    let from = room(numbers, 1, end);
    bytes[from..end].fill((number(numbers, 2) % 256) as u8);
}

// hold BYTE..              these bytes, and 9s after them
// flip PLACE BITS          changes bits of a byte
// reseal BLOCKS            makes the sums of so many blocks right, up to the 574 of an image
// pad END FROM BYTE        makes the bytes from one place up to another all the same
// Before a string, an image or a text is made there are 9s as far as its room goes, and zeros
// after.
pub fn alter(word: Word, numbers: &[u32], bytes: &mut [u8]) {
    match word {
        Word::Hold => hold(numbers, bytes),
        Word::Flip => flip(numbers, bytes),
        Word::Reseal => reseal(numbers, bytes),
        Word::Pad => pad(numbers, bytes),
        Word::Encode | Word::Image | Word::Survey | Word::Text => clear(numbers, bytes),
        _ => {}
    }
}
