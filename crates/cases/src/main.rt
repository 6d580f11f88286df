// A program that runs a script of cases through the public calls and prints what comes back.
// It reads the script: each line is a word and numbers (crate `cases_script`); a line that begins
// with no such word is a remark. A tree, metres of its nodes, and bytes in hand (a string, a pack,
// an image or a text), stay from line to line. Each line is printed, and below it what the public
// call answered and every list that it wrote to, whole. Such a list holds 9s before the call: what
// is not written must stay. A number that a line lacks is 0, and a size is cut to what there is, so
// that every script is safe to run.
#![tactic(auto)]

ghost use Rattle.std.specs.Prelude.{◌≤◌, length, IfOk};

use cases_script::{Word, number, room, signed, size};
use cases_show::Digest;
use meaning::Answer;
use std::io;
use std::io::Read;

// Tree, metres and bytes go as three slices. Tried: one struct of them, borrowed. No proof: the
// bytes are written while the others are read, and a field behind a reference that is read while
// another is lent has no rule yet.
fn call_bytes(
    word: Word,
    numbers: &[u32],
    parents: &[u32],
    metres: &[u32],
    list: &mut [u8],
) -> Answer {
    match word {
        Word::Encode => parlaqen::plq_string_of_parents(parents, list),
        Word::Image => parlaqen::plq_image_of_parents(parents, list),
        Word::Survey => parlaqen::plq_image_with_metres(parents, metres, list),
        Word::Text => parlaqen::plq_text_of_parents(parents, list),
        _ => parlaqen::plq_join(list, size(numbers, 2), size(numbers, 3), parents),
    }
}

fn make_in(
    rt: &impl Print,
    word: Word,
    numbers: &[u32],
    parents: &[u32],
    metres: &[u32],
    list: &mut [u8],
) -> io::Result<()> {
    cases_show::answered(rt, call_bytes(word, numbers, parents, metres, list))?;
    cases_show::bytes(rt, list)
}

// encode NODES ROOM             the tree's string, in hand
// image NODES ROOM              the tree's image, in hand
// survey NODES ROOM METRES      the tree's image with so many of the metres, in hand
// text NODES ROOM               the tree's text, in hand
// join NODES ROOM BITS TREES    the tree's string after the pack in hand
fn make(
    rt: &impl Print,
    word: Word,
    numbers: &[u32],
    parents: &[u32],
    metres: &[u32],
    bytes: &mut [u8],
) -> io::Result<()> {
    let n = room(numbers, 0, parents.len());
    let m = room(numbers, 1, bytes.len());
    let k = room(numbers, 2, metres.len());
    cases_script::alter(word, numbers, bytes);
    make_in(
        rt,
        word,
        numbers,
        &parents[0..n],
        &metres[0..k],
        &mut bytes[0..m],
    )
}

// Has every question ask about one node.
fn name_node(asked: &mut [i32], node: i32) {
    for question in asked.chunks_exact_mut(3) {
        question[1] = node;
    }
}

fn after_answers(before: Digest, image: &[u8], asked: &[i32]) -> Digest {
    let mut answers = [9u32; 27];
    parlaqen::plq_ask(image, asked, &mut answers);
    cases_show::after_words(before, &answers)
}

// nodes BYTES FIRST NODES NUMBER..    26 questions about each of so many nodes, in place of the one
//                                     that they name, with room for 27 answers: all these lists in
//                                     sum
fn nodes(rt: &impl Print, numbers: &[u32], image: &[u8]) -> io::Result<()> {
    let mut asked = [0i32; 78];
    let mut d = Digest::default();
    cases_script::put_signed(numbers, 3, &mut asked);
    for i in 0..number(numbers, 2) {
        name_node(&mut asked, signed(number(numbers, 1).wrapping_add(i)));
        d = after_answers(d, image, &asked);
    }
    cases_show::summed(rt, d)
}

fn ask(numbers: &[u32], image: &[u8], list: &mut [u32]) -> Answer {
    let mut asked = [0i32; 1024];
    let n = cases_script::put_signed(numbers, 2, &mut asked);
    parlaqen::plq_ask(image, &asked[0..n], list)
}

fn call_words(word: Word, numbers: &[u32], bytes: &[u8], list: &mut [u32]) -> Answer {
    match word {
        Word::Decode => parlaqen::plq_parents_of_string(bytes, size(numbers, 2), list),
        Word::Unseal => parlaqen::plq_parents_of_image(bytes, list),
        Word::Untext => parlaqen::plq_parents_of_text(bytes, list),
        Word::Distances => parlaqen::plq_metres_of_image(bytes, list),
        Word::Ask => ask(numbers, bytes, list),
        _ => parlaqen::plq_list(bytes, number(numbers, 2), list),
    }
}

fn read_in(
    rt: &impl Print,
    word: Word,
    numbers: &[u32],
    parents: &[u32],
    metres: &[u32],
    bytes: &[u8],
    list: &mut [u32],
) -> io::Result<()> {
    cases_show::answered(rt, call_words(word, numbers, bytes, list))?;
    cases_show::words(rt, list)?;
    match word {
        Word::Unseal | Word::Untext => cases_show::equal(rt, parents, list),
        Word::Distances => cases_show::equal(rt, metres, list),
        _ => Ok(()),
    }
}

// decode BYTES ROOM BITS        the parents that the string in hand gives
// unseal BYTES ROOM             the parents of the image, and how many of them are the tree's
// untext BYTES ROOM             the parents that the text gives, and how many are the tree's
// distances BYTES ROOM          the metres of the image, and how many of them are those in hand
// ask BYTES ROOM NUMBER..       questions to the image
// list BYTES ROOM NODE          the listing from a node
fn read(
    rt: &impl Print,
    word: Word,
    numbers: &[u32],
    parents: &[u32],
    metres: &[u32],
    bytes: &[u8],
) -> io::Result<()> {
    let mut list = [9u32; 65536];
    let n = room(numbers, 1, 65536);
    read_in(rt, word, numbers, parents, metres, bytes, &mut list[0..n])
}

fn split_in(
    rt: &impl Print,
    numbers: &[u32],
    pack: &[u8],
    starts: &mut [u32],
    sizes: &mut [u32],
) -> io::Result<()> {
    cases_show::answered(
        rt,
        parlaqen::plq_split(pack, size(numbers, 3), size(numbers, 4), starts, sizes),
    )?;
    cases_show::words(rt, starts)?;
    cases_show::words(rt, sizes)
}

// split BYTES ROOM ROOM BITS TREES    the starts and the sizes of the trees of the pack in hand
fn split(rt: &impl Print, numbers: &[u32], pack: &[u8]) -> io::Result<()> {
    let mut starts = [9u32; 300];
    let mut sizes = [9u32; 300];
    let n = room(numbers, 1, 300);
    let m = room(numbers, 2, 300);
    split_in(rt, numbers, pack, &mut starts[0..n], &mut sizes[0..m])
}

// view END FROM      some of the bytes in hand
fn view(rt: &impl Print, numbers: &[u32], bytes: &[u8]) -> io::Result<()> {
    let from = room(numbers, 1, bytes.len());
    cases_show::bytes(rt, &bytes[from..])
}

// check BYTES        the check of the image
fn look_at(
    rt: &impl Print,
    word: Word,
    numbers: &[u32],
    parents: &[u32],
    metres: &[u32],
    bytes: &[u8],
) -> io::Result<()> {
    match word {
        Word::Check => cases_show::answered(rt, parlaqen::plq_check_image(bytes)),
        Word::Decode | Word::Unseal | Word::Untext | Word::Distances | Word::Ask | Word::List =>
            read(rt, word, numbers, parents, metres, bytes),
        Word::Nodes => nodes(rt, numbers, bytes),
        Word::Split => split(rt, numbers, bytes),
        Word::View => view(rt, numbers, bytes),
        _ => Ok(()),
    }
}

fn look(
    rt: &impl Print,
    word: Word,
    numbers: &[u32],
    parents: &[u32],
    metres: &[u32],
    bytes: &[u8],
) -> io::Result<()> {
    let n = room(numbers, 0, bytes.len());
    look_at(rt, word, numbers, parents, metres, &bytes[0..n])
}

fn obey(
    rt: &impl Print,
    word: Word,
    numbers: &[u32],
    parents: &mut [u32],
    metres: &mut [u32],
    bytes: &mut [u8],
) -> io::Result<()> {
    match word {
        Word::Parents | Word::Grow | Word::Branches | Word::Mixed => {
            cases_script::plant(word, numbers, parents);
            Ok(())
        }
        Word::Metres | Word::Rise => {
            cases_script::plant(word, numbers, metres);
            Ok(())
        }
        Word::Hold | Word::Flip | Word::Reseal | Word::Pad => {
            cases_script::alter(word, numbers, bytes);
            Ok(())
        }
        Word::Encode | Word::Image | Word::Survey | Word::Text | Word::Join => make(
            rt, word, numbers, parents, metres, bytes,
        ),
        _ => look(rt, word, numbers, parents, metres, bytes),
    }
}

fn step(
    rt: &impl Print,
    line: &[u8],
    parents: &mut [u32],
    metres: &mut [u32],
    bytes: &mut [u8],
) -> io::Result<()> {
    let mut numbers = [0u32; 1024];
    let n = cases_script::numbers_of(line, &mut numbers);
    let word = cases_script::word_of(line);
    obey(rt, word, &numbers[0..n], parents, metres, bytes)
}

fn run(
    rt: &impl Print,
    text: &[u8],
    parents: &mut [u32],
    metres: &mut [u32],
    bytes: &mut [u8],
) -> io::Result<()> {
    let mut at: usize = 0;
    while at < text.len() {
        let end = cases_script::line_end(text, at);
        rt.write_all(&text[at..end])?;
        step(rt, &text[at..end], parents, metres, bytes)?;
        at = end;
    }
    Ok(())
}

// Bytes in hand: one more than a text may have, and more than an image has. The length of an array
// that a call gives is known; that of one written out is counted, which a million bytes are too
// many for.
fn zeros() -> [u8; 1048577] {
    [0u8; 1048577]
}

// Reads until the buffer is full or the input ends, and answers how many bytes it put at the start
// of the buffer.
fn read_full(input: &mut impl Read, buffer: &mut [u8]) -> io::Result<usize>
    ensures { IfOk result (λ count. count ≤ length buffer.new) }
{
    let mut done: usize = 0;
    while done < buffer.len() {
        let more = input.read(&mut buffer[done..])?;
        if more == 0 {
            break;
        }
        done += more;
    }
    Ok(done)
}

// There is room for one node more than a tree may have.
fn main(rt: HostRuntime) -> io::Result<()> {
    let mut text = [0u8; 65536];
    let mut parents = [0u32; 65536];
    let mut metres = [0u32; 65536];
    let mut bytes = zeros();
    let n = read_full(&mut rt.stdin(), &mut text)?;
    run(&rt, &text[..n], &mut parents, &mut metres, &mut bytes)
}
