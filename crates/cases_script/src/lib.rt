// The lines of a script of cases, their words, and the trees, metres and bytes they are run on.
// A line is a word and decimal numbers, each after a space. A number is kept as its lowest 32 bits:
// -1 is 4294967295. One that a line lacks counts as 0, so that no line is wrong.
// The words are in `words`, and what the lines are run on in `material`.
#![tactic(auto)]

mod material;
mod words;

ghost use Rattle.std.specs.Prelude.{◌<◌, ◌≤◌, length};

pub use material::{alter, plant};
pub use words::{Word, word_of};

// The first place, from `at` on, that holds this byte, or the end.
fn find(text: &[u8], at: usize, sought: u8) -> usize
    requires { at ≤ length text.now }
    ensures { (at ≤ result) × (result ≤ length text.now) }
{
    for i in at..text.len() {
        if text[i] == sought {
            return i;
        }
    }
    text.len()
}

// Where the line that begins at `at` ends, its line end included.
pub fn line_end(text: &[u8], at: usize) -> usize
    requires { at < length text.now }
    ensures { (at < result) × (result ≤ length text.now) }
{
    let end = find(text, at, b'\n');
    if end < text.len() { end + 1 } else { end }
}

// One more digit after a number: its value is its lowest four bits.
fn with_digit(value: u32, x: u8) -> u32 {
    value.wrapping_mul(10).wrapping_add(u32::from(x % 16))
}

// The number whose digits begin at `at` and go on up to a byte below them, as a space or a line
// end.
fn digits_at(line: &[u8], at: usize) -> u32 {
    let mut value: u32 = 0;
    for x in &line[at.min(line.len())..] {
        if *x < b'0' {
            return value;
        }
        value = with_digit(value, *x);
    }
    value
}

fn number_at(line: &[u8], at: usize) -> u32 {
    if line.get(at) == Some(&b'-') {
        digits_at(line, at + 1).wrapping_neg()
    } else {
        digits_at(line, at)
    }
}

// Writes the numbers of a line, as many as the list holds; answers how many.
pub fn numbers_of(line: &[u8], list: &mut [u32]) -> usize
    ensures { result ≤ length list.new }
{
    let mut at = find(line, 0, b' ');
    for count in 0..list.len() {
        if line.len() <= at {
            return count;
        }
        list[count] = number_at(line, at + 1);
        at = find(line, at + 1, b' ');
    }
    list.len()
}

// Number i, from 0.
pub fn number(numbers: &[u32], i: usize) -> u32 {
    numbers.get(i).copied().unwrap_or(0)
}

// Number i, from 0, as a count: one below 0 is as far below 2^64.
pub fn size(numbers: &[u32], i: usize) -> usize {
    (signed(number(numbers, i)) as isize).cast_unsigned()
}

// Number i, from 0, as a count, cut to what there is.
pub fn room(numbers: &[u32], i: usize, most: usize) -> usize
    ensures { result ≤ most }
{
    size(numbers, i).min(most)
}

// The signed number of these 32 bits.
pub fn signed(x: u32) -> i32 {
    x.cast_signed()
}

// Writes the numbers as bytes, as many as the list holds; answers how many.
pub fn put_bytes(numbers: &[u32], list: &mut [u8]) -> usize
    ensures { result ≤ length list.new }
{
    let count = numbers.len().min(list.len());
    for (entry, x) in list.iter_mut().zip(numbers) {
        *entry = (*x % 256) as u8;
    }
    count
}

// Writes the numbers after the first so many as signed ones, as many as the list holds; answers how
// many.
pub fn put_signed(numbers: &[u32], skip: usize, list: &mut [i32]) -> usize
    ensures { result ≤ length list.new }
{
    let count = numbers.len().saturating_sub(skip).min(list.len());
    for (entry, x) in list.iter_mut().zip(numbers.iter().skip(skip)) {
        *entry = signed(*x);
    }
    count
}
