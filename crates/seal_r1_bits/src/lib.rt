// The bits of R1 from a parent list, a one where an entry differs from the next; their number.
#![tactic(auto)]

ghost use Rattle.std.specs.Prelude.{◌≡◌, List, ℕ, ◌+◌, ◌<◌, ◌≤◌, length, get_or, drop};
ghost use Rattle.meaning.specs.Bytes.{number, value};
ghost use Rattle.meaning.specs.Parents.{bad_entry};
ghost use Rattle.meaning.specs.Strings.{Bit, O, R1, string_of};
ghost use Rattle.seal_r1_bits.specs.Listed.{next_of, runs_in};

// The entry after entry `i`, counted from 0. After the last one comes one more than there are
// entries, as if a node had to be closed there.
pub fn next_entry(ps: &[u32], i: usize) -> usize
    requires i_in_bounds { i < length ps.now }
    requires ps_len_bound { length ps.now ≤ 65535 }
    ensures { result ≡ next_of (drop (i + 1) ps.now) (length ps.now + 1) }
{
    match ps.get(i + 1) {
        Some(entry) => *entry as usize,
        None => ps.len() + 1,
    }
}

// How many runs of ones the string of a parent list has: as many as there are entries that differ
// from the next, the last among them.
pub fn count_runs(ps: &[u32]) -> usize
    requires in_bounds { 1 ≤ length ps.now }
    requires ps_len_bound { length ps.now ≤ 65535 }
    requires ps_value { bad_entry ps.now ≡ 0 }
    ensures { result ≡ runs_in ps.now }
{
    let mut k = 0;
    for i in 1..ps.len() {
        // a number to be added, so that nothing branches on whether they differ
        k += usize::from(ps[i - 1] != ps[i]);
    }
    k + 1
}

// Bit i of R1, and 0 after the last one.
fn r1_bit(ps: &[u32], i: usize) -> u8
    requires in_bounds { 1 ≤ length ps.now }
    requires ps_len_bound { length ps.now ≤ 65535 }
    requires ps_value { bad_entry ps.now ≡ 0 }
    requires i_bound { i ≤ 70000 }
    ensures { (result ≡ value (get_or (R1 (string_of ps.now)) i O)) × (result ≤ 1) }
{
    if i + 1 < ps.len() {
        return u8::from(ps[i] != ps[i + 1]);
    }
    if i < ps.len() {
        return 1;
    }
    0
}

// Eight bits as a byte, from the leftmost on.
fn byte_of<F: Fn(usize) -> u8>(bit: F) -> u8
    requires told { (j : ℕ) → j < 8 → F.pre bit j }
    requires bit_bound { (j r : ℕ) → j < 8 → F.post bit j r → r ≤ 1 }
    ensures { (bits : List Bit) → ((j r : ℕ) → j < 8 → F.post bit j r → r ≡ value (get_or bits j O)) → result ≡ number 8 bits }
{
    let mut x = 0;
    for j in 0..8 {
        x = 2 * x + bit(j);
    }
    x
}

// Eight bits of R1 as a byte, from bit i on.
pub fn r1_byte(ps: &[u32], i: usize) -> u8
    requires i_in_bounds { i < length ps.now }
    requires ps_len_bound { length ps.now ≤ 65535 }
    requires ps_value { bad_entry ps.now ≡ 0 }
    ensures { result ≡ number 8 (drop i (R1 (string_of ps.now))) }
{
    if i + 8 < ps.len() {
        // each of them has an entry after its own, so that nothing branches on where the list ends
        return byte_of(|j| u8::from(ps[i + j] != ps[i + j + 1]));
    }
    byte_of(|j| r1_bit(ps, i + j))
}
