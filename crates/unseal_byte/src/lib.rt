// The positions of the ones of a byte, written from the last to the first.
#![tactic(auto)]

ghost use Rattle.std.specs.Prelude.{[], ◌∷◌, ◌+◌, ◌≤◌, ◌<◌, length};
ghost use Rattle.meaning.specs.Bytes.{bits_from};
ghost use Rattle.meaning.specs.Strings.{ones};
ghost use Rattle.unseal_byte.specs.Placed.{Placed};

use bits_byte::bit_of;

// Of the first n bits of a byte, which i bits come before, writes the position of each one, the
// last of them before entry k of `out`, and answers the entry of the first. A zero writes too, and
// what comes next writes over it, so that nothing branches on a bit.
pub fn write_byte_positions(x: u8, n: usize, i: usize, k: usize, out: &mut [u32]) -> usize
    requires n_bound { n ≤ 8 }
    requires n_bound_2 { i + n ≤ 65535 }
    requires n_bound_3 { ones (bits_from (x ∷ []) 0 n) < k }
    requires k_in_bounds { k ≤ length out.old }
    ensures { Placed (bits_from (x ∷ []) 0 n) i k out.old out.new result }
{
    let mut low = k;
    for bit in (0..n).rev() {
        out[low - 1] = (i + bit + 1) as u32;
        low -= bit_of(x, bit);
    }
    low
}
