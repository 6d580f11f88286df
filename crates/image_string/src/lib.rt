// One string of an image, in its blocks: a bit of it, bytes that are zero, laws of its ones.
#![tactic(auto)]

ghost use Rattle.std.specs.Prelude.{◌≡◌, ◌+◌, ◌*◌, ◌/◌, ◌%◌, ◌≤◌, ◌<◌, length};
ghost use Rattle.theory.specs.Bounds.{most_block};
ghost use Rattle.meaning.specs.Bytes.{bit_at, value};
ghost use Rattle.image_string.specs.Decides.{Decides};
ghost use Rattle.image_string.specs.Parts.{ZeroBytes};

use bits_byte::bit_at;
use image_layout::bits_at;

// Bit i of the string whose blocks begin at block `bits_block`.
pub fn string_bit(b: &[u8], bits_block: usize, i: usize) -> u8
    requires i_bound { i ≤ 4000 * most_block }
    requires bits_block_le_most_block { bits_block ≤ most_block }
    requires i_in_bounds { 512 * (bits_block + i / 4000 + 1) ≤ length b.now }
    ensures { result ≡ value (bit_at b.now (8 * (512 * (bits_block + i / 4000) + 4) + i % 4000)) }
{
    bit_at(b, 8 * bits_at(bits_block + i / 4000) + i % 4000)
}

// Are the bytes from `from` to before `to` all zero? It looks at every one, whatever it finds, so
// that it is vectorised.
pub fn all_zero(b: &[u8], from: usize, to: usize) -> bool
    requires from_le_to { from ≤ to }
    requires to_in_bounds { to ≤ length b.now }
    ensures { Decides result (ZeroBytes b.now from to) }
{
    let mut seen: u8 = 0;
    for x in &b[from..to] {
        seen |= *x;
    }
    seen == 0
}
