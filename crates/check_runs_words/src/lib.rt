// R1 and R0 in step in up to eight bytes: by the number of ones where it suffices, else by bits.
#![tactic(auto)]

ghost use Rattle.std.specs.Prelude.{◌≡◌, ◌+◌, ◌*◌, ◌/◌, ◌≤◌, length};
ghost use Rattle.meaning.specs.Strings.{ones};
ghost use Rattle.theory.specs.Bounds.{most_block, most_ones};
ghost use Rattle.meaning.specs.Bytes.{bits_from};
ghost use Rattle.image_string.specs.Decides.{Decides};
ghost use Rattle.check_runs_words.specs.Steps.{StepAt};
ghost use Rattle.bits_count.specs.Without.{without};

use bits_byte::{bit_at, ones_in_byte};

// Of n bits of R1 from byte `at1` on, which `ones1` ones come before, and n of R0 from `at0` on,
// which `ones0` come before: is R1 in step with R0 at each of them? Bit by bit.
fn bits_in_step(b: &[u8], at1: usize, at0: usize, n: usize, ones1: usize, ones0: usize) -> bool
    requires b_len_bound { length b.now ≤ 512 * most_block }
    requires n_bound { n ≤ 8 }
    requires n_in_bounds { at1 + (n + 7) / 8 ≤ length b.now }
    requires n_in_bounds_2 { at0 + (n + 7) / 8 ≤ length b.now }
    requires n_bound_2 { ones1 + n ≤ most_ones }
    requires n_bound_3 { ones0 + n ≤ most_ones }
    ensures { Decides result (StepAt b.now at1 at0 n ones1 ones0) }
{
    let mut before1 = ones1;
    let mut before0 = ones0;
    for i in 0..n {
        if before0 < before1 {
            return false;
        }
        before1 += bit_at(b, 8 * at1 + i) as usize;
        before0 += bit_at(b, 8 * at0 + i) as usize;
    }
    true
}

// Of a byte of R1 at `at1`, which `ones1` ones come before, and a byte of R0 at `at0`, which
// `ones0` come before: is R1 in step with R0 at each bit? R1 has `more` ones in its byte.
fn byte_in_step(b: &[u8], at1: usize, at0: usize, ones1: usize, ones0: usize, more: usize) -> bool
    requires b_len_bound { length b.now ≤ 512 * most_block }
    requires at1_in_bounds { at1 + 1 ≤ length b.now }
    requires at0_in_bounds { at0 + 1 ≤ length b.now }
    requires ones1_bound { ones1 + 8 ≤ most_ones }
    requires ones0_bound { ones0 + 8 ≤ most_ones }
    requires more_value { more ≡ ones (bits_from b.now (8 * at1) 8) }
    ensures { Decides result (StepAt b.now at1 at0 8 ones1 ones0) }
{
    // then R1 does not come to have more inside the byte
    if ones1 + more <= ones0 {
        return true;
    }
    bits_in_step(b, at1, at0, 8, ones1, ones0)
}

// Of n bits of R1 from byte `at1` on, which `ones1` ones come before, and n of R0 from `at0` on,
// which `ones0` come before: is R1 in step with R0 at each of them? Byte by byte.
pub fn bytes_in_step(b: &[u8], at1: usize, at0: usize, n: usize, ones1: usize, ones0: usize) -> bool
    requires b_len_bound { length b.now ≤ 512 * most_block }
    requires n_bound { n ≤ 64 }
    requires n_in_bounds { at1 + (n + 7) / 8 ≤ length b.now }
    requires n_in_bounds_2 { at0 + (n + 7) / 8 ≤ length b.now }
    requires n_bound_2 { ones1 + n ≤ most_ones }
    requires n_bound_3 { ones0 + n ≤ most_ones }
    ensures { Decides result (StepAt b.now at1 at0 n ones1 ones0) }
{
    let mut before1 = ones1;
    let mut before0 = ones0;
    for i in 0..n / 8 {
        let more = ones_in_byte(b[at1 + i]) as usize;
        if !byte_in_step(b, at1 + i, at0 + i, before1, before0, more) {
            return false;
        }
        before1 += more;
        before0 += ones_in_byte(b[at0 + i]) as usize;
    }
    bits_in_step(b, at1 + n / 8, at0 + n / 8, n % 8, before1, before0)
}

// Of eight bytes of R1 from `at1` on, which `ones1` ones come before, and eight of R0 from `at0`
// on, which `ones0` come before: is R1 in step with R0 at each bit? R1 has `ahead` ones in them
// where R0 has none.
pub fn word_in_step(
    b: &[u8],
    at1: usize,
    at0: usize,
    ones1: usize,
    ones0: usize,
    ahead: usize,
) -> bool
    requires b_len_bound { length b.now ≤ 512 * most_block }
    requires at1_in_bounds { at1 + 8 ≤ length b.now }
    requires at0_in_bounds { at0 + 8 ≤ length b.now }
    requires ones1_bound { ones1 + 64 ≤ most_ones }
    requires ones0_bound { ones0 + 64 ≤ most_ones }
    requires ahead_value { ahead ≡ ones (without (bits_from b.now (8 * at1) 64) (bits_from b.now (8 * at0) 64)) }
    ensures { Decides result (StepAt b.now at1 at0 64 ones1 ones0) }
{
    // a one that both have moves neither ahead
    if ones1 + ahead <= ones0 {
        return true;
    }
    bytes_in_step(b, at1, at0, 64, ones1, ones0)
}
