// The positions of the ones of a string of an image, written from the last to the first.
#![tactic(auto)]

ghost use Rattle.std.specs.Prelude.{◌+◌, ◌*◌, ◌/◌, ◌≤◌, ◌<◌, length};
ghost use Rattle.theory.specs.Bounds.{most_block};
ghost use Rattle.meaning.specs.Bytes.{bits_from};
ghost use Rattle.meaning.specs.Image.{string_in};
ghost use Rattle.meaning.specs.Strings.{ones};
ghost use Rattle.unseal_byte.specs.Placed.{Placed};

use image_layout::bits_at;
use unseal_byte::write_byte_positions;

// Of n bits from byte `at` on, which i bits of their string come before, writes the position of
// each one, the last of them before entry k of `out`, and answers the entry of the first.
fn write_block_positions(
    b: &[u8],
    at: usize,
    n: usize,
    i: usize,
    k: usize,
    out: &mut [u32],
) -> usize
    requires n_bound { n ≤ 4000 }
    requires n_bound_2 { i + n ≤ 65535 }
    requires at_in_bounds { at + 501 ≤ length b.now }
    requires n_bound_3 { ones (bits_from b.now (8 * at) n) < k }
    requires k_in_bounds { k ≤ length out.old }
    ensures { Placed (bits_from b.now (8 * at) n) i k out.old out.new result }
{
    let bytes = n / 8;
    let mut low = write_byte_positions(b[at + bytes], n % 8, i + 8 * bytes, k, out);
    for w in (0..bytes).rev() {
        let x = b[at + w];
        // the leaves at the end of a tree are many bytes of zeros
        if x != 0 {
            low = write_byte_positions(x, 8, i + 8 * w, low, out);
        }
    }
    low
}

// Of the first n bits of the string whose blocks begin at block `bits_block`, which has one bit
// more, writes the position of each one, the last of them to entry n - 1 of `out`, and answers the
// entry of the first.
pub fn write_string_positions(b: &[u8], bits_block: usize, n: usize, out: &mut [u32]) -> usize
    requires n_bound { n ≤ 65535 }
    requires bits_block_le_most_block { bits_block ≤ most_block }
    requires n_in_bounds { 512 * (bits_block + n / 4000 + 1) ≤ length b.now }
    requires n_bound_2 { ones (string_in b.now bits_block 0 n) < n }
    requires n_in_bounds_2 { n ≤ length out.old }
    ensures { Placed (string_in b.now bits_block 0 n) 0 n out.old out.new result }
{
    let blocks = n / 4000;
    let last = bits_at(bits_block + blocks);
    let mut low = write_block_positions(b, last, n % 4000, 4000 * blocks, n, out);
    for j in (0..blocks).rev() {
        low = write_block_positions(b, bits_at(bits_block + j), 4000, 4000 * j, low, out);
    }
    low
}
