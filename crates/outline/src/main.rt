// The outline program: reads an image, and prints its outline.
#![tactic(auto)]

ghost use Rattle.std.specs.Prelude.{◌≤◌, length};

use outline_page::outline;
use std::io::Read;

// Reads until the buffer is full, the input ends or a read fails, and answers how many bytes it put
// at the start of the buffer. The program `cases` has its own: a failed read ends that program, and
// here what was read before it is outlined.
fn read_full(input: &mut impl Read, buffer: &mut [u8]) -> usize
    ensures { result ≤ length buffer.new }
{
    let mut done: usize = 0;
    while done < buffer.len() {
        let Ok(more) = input.read(&mut buffer[done..]) else {
            break;
        };
        if more == 0 {
            break;
        }
        done += more;
    }
    done
}

fn main(rt: HostRuntime) {
    // one byte more than the largest image that is outlined
    let mut input = [0u8; 49153];
    let mut pairs = [0u32; 8000];
    let mut text = [0u8; 98304];
    let got = read_full(&mut rt.stdin(), &mut input);
    let filled = outline(&input[..got], &mut pairs, &mut text);
    // nobody is left to be told that the text could not be written
    let _ = rt.write_all(&text[..filled]);
}
