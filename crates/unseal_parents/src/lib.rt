// The parents that R1 and R0 give: the positions of R0's ones, spread over the bits of R1.
#![tactic(auto)]

ghost use Rattle.std.specs.Prelude.{◌≡◌, [], ◌∷◌, ◌++◌, ◌+◌, ◌*◌, ◌/◌, ◌≤◌, ◌<◌, drop, length};
ghost use Rattle.meaning.specs.Answers.{written};
ghost use Rattle.meaning.specs.Bytes.{bits_from};
ghost use Rattle.meaning.specs.Image.{string_in};
ghost use Rattle.meaning.specs.Strings.{ones, parents_of, woven};
ghost use Rattle.theory.specs.Stages.{r1_samples, r0_block};
ghost use Rattle.unseal_parents.specs.Spread.{InRuns, SpreadOut, spread};

use bits_byte::bit_of;
use image_layout::bits_at;
use unseal_r0::write_string_positions;

// For each of the first n bits of a byte, from entry i on, writes the number at entry p; a one
// moves p on. Answers where p comes to. It never falls behind what is written.
fn spread_byte(x: u8, n: usize, i: usize, p: usize, out: &mut [u32]) -> usize
    requires n_bound { n ≤ 8 }
    requires n_bound_2 { i + n ≤ p + ones (bits_from (x ∷ []) 0 n) }
    requires n_in_bounds { p + ones (bits_from (x ∷ []) 0 n) < length out.old }
    ensures { SpreadOut (bits_from (x ∷ []) 0 n) i p out.old out.new result }
{
    let mut from = p;
    for bit in 0..n {
        out[i + bit] = out[from];
        from += bit_of(x, bit);
    }
    from
}

// For each of n bits from byte `at` on, from entry i on, writes the number at entry p; a one moves
// p on. Answers where p comes to.
fn spread_block(b: &[u8], at: usize, n: usize, i: usize, p: usize, out: &mut [u32]) -> usize
    requires n_bound { n ≤ 4000 }
    requires at_in_bounds { at + 501 ≤ length b.now }
    requires n_bound_2 { i + n ≤ p + ones (bits_from b.now (8 * at) n) }
    requires n_in_bounds { p + ones (bits_from b.now (8 * at) n) < length out.old }
    ensures { SpreadOut (bits_from b.now (8 * at) n) i p out.old out.new result }
{
    let bytes = n / 8;
    let mut from = p;
    for w in 0..bytes {
        from = spread_byte(b[at + w], 8, i + 8 * w, from, out);
    }
    spread_byte(b[at + bytes], n % 8, i + 8 * bytes, from, out)
}

// For each of the first n bits of R1, which has one bit more, from entry 0 on, writes the number at
// entry p; a one moves p on.
fn spread_string(b: &[u8], n: usize, p: usize, out: &mut [u32])
    requires n_bound { n ≤ 65535 }
    requires n_in_bounds { 512 * (1 + n / 4000 + 1) ≤ length b.now }
    requires n_bound_2 { n ≤ p + ones (string_in b.now 1 0 n) }
    requires n_in_bounds_2 { p + ones (string_in b.now 1 0 n) < length out.old }
    ensures { out.new ≡ spread (string_in b.now 1 0 n) (drop p out.old) ++ drop n out.old }
{
    let blocks = n / 4000;
    let mut from = p;
    for j in 0..blocks {
        from = spread_block(b, bits_at(1 + j), 4000, 4000 * j, from, out);
    }
    spread_block(b, bits_at(1 + blocks), n % 4000, 4000 * blocks, from, out);
}

// Writes the parents that R1 and R0 give: the nodes with children, which the ones of R0 before its
// last bit name, go to the end of the list after a 0 for the root's parent, and are spread from
// there over the list. The last node's parent then is there already.
pub fn write_parents(b: &[u8], zeros: usize, n: usize, out: &mut [u32])
    requires n_bound { n ≤ 65535 }
    requires zeros_value { zeros ≡ r0_block n }
    requires n_in_bounds { 512 * r1_samples n ≤ length b.now }
    requires in_runs { InRuns (string_in b.now 1 0 n) (string_in b.now zeros 0 (n + 1)) }
    requires n_in_bounds_2 { n ≤ length out.old }
    ensures { out.new ≡ written (parents_of (woven (string_in b.now 1 0 n) (string_in b.now zeros 0 (n + 1)))) out.old }
{
    let root = write_string_positions(b, zeros, n, out) - 1;
    out[root] = 0;
    spread_string(b, n - 1, root, out);
}
