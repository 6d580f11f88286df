// The bits of a string read: whether a leftover bit is set, and the parents that they give.
#![tactic(auto)]

ghost use Rattle.std.specs.Prelude.{◌≡◌, [], ◌∷◌, ◌+◌, ◌*◌, ◌≤◌, ◌<◌, length};
ghost use Rattle.meaning.specs.Answers.{written};
ghost use Rattle.meaning.specs.Bytes.{bits_from, leftover};
ghost use Rattle.meaning.specs.Strings.{ones, parents_of};
ghost use Rattle.string_read.specs.Entered.{entered};

use bits_byte::bit_of;

// Is a leftover bit set, after the first `n` bits of `b`?
pub fn leftover_set(b: &[u8], n: usize) -> bool
    requires { n ≤ 8 * length b.now }
    ensures { result ≡ leftover b.now n }
{
    let used = n % 8;
    if used == 0 {
        return false;
    }
    let left = b[n / 8] << used;
    left != 0
}

// Writes the parents that the eight bits of a byte give, which p bits come before: the first of
// them into entry k. Answers the entry that comes next.
// A zero writes too, and what comes next writes over it, so that nothing branches on a bit.
fn write_byte(x: u8, p: usize, k: usize, out: &mut [u32]) -> usize
    requires k_le_p { k ≤ p }
    requires p_bound { p ≤ 131063 }
    requires k_in_bounds { k + 8 ≤ length out.old }
    ensures { (result ≡ k + ones (bits_from (x ∷ []) 0 8)) × (out.new ≡ entered (bits_from (x ∷ []) 0 8) k p out.old) }
{
    let mut next = k;
    for bit in 0..8 {
        out[next] = (p + bit - next) as u32;
        next += bit_of(x, bit);
    }
    next
}

// Writes the parents that the first `n` bits of `b` give, of which there are `nodes`: for each one
// the zeros before it.
pub fn write_parents(b: &[u8], n: usize, nodes: usize, out: &mut [u32])
    requires n_bound { n ≤ 8 * length b.now }
    requires n_bound_2 { n ≤ 131071 }
    requires nodes_value { nodes ≡ ones (bits_from b.now 0 n) }
    requires nodes_in_bounds { nodes ≤ length out.old }
    ensures { out.new ≡ written (parents_of (bits_from b.now 0 n)) out.old }
{
    let mut k: usize = 0;
    let mut i: usize = 0;
    // as long as eight entries are left, what a byte's last zeros write is among them; both loops
    // go on until the entries are written, and only the bits tell how far that is
    while k + 8 <= nodes {
        k = write_byte(b[i], 8 * i, k, out);
        i += 1;
    }
    let mut p = 8 * i;
    while k < nodes {
        out[k] = (p - k) as u32;
        k += bits_byte::bit_at(b, p) as usize;
        p += 1;
    }
}
