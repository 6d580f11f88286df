// Bits, and zeros, appended to a lent buffer; the rest of the last byte becomes zero.
#![tactic(auto)]

ghost use Rattle.std.specs.Prelude.{◌≡◌, ◌+◌, ◌*◌, ◌≤◌, length, replicate, take};
ghost use Rattle.meaning.specs.Strings.{O};
ghost use Rattle.bits_byte.specs.Byte.{byte_bits};
ghost use Rattle.bits_append.specs.Appended.{appended};

use bits_byte::keep;

// Writes the first n bits of `x` after the first `at` bits of `buf`. The rest of the last byte
// written becomes zero.
pub fn append(buf: &mut [u8], at: usize, x: u8, n: usize)
    requires le_n { 1 ≤ n }
    requires n_bound { n ≤ 8 }
    requires n_bound_2 { at + n ≤ 8 * length buf.old }
    ensures { buf.new ≡ appended buf.old at (take n (byte_bits x)) }
{
    let i = at / 8;
    let r = at % 8;
    let new = keep(x, n);
    buf[i] = keep(buf[i], r) | (new >> r);
    if 8 < r + n {
        buf[i + 1] = new << (8 - r);
    }
}

// Writes n zeros after the first `at` bits of `buf`: the rest of a byte, then whole bytes.
pub fn blank(buf: &mut [u8], at: usize, n: usize)
    requires le_n { 1 ≤ n }
    requires n_bound { at + n ≤ 8 * length buf.old }
    ensures { buf.new ≡ appended buf.old at (replicate n O) }
{
    // the byte after the last zero's; at + n need not fit a usize
    let end = at / 8 + (n - 1) / 8 + (at % 8 + (n - 1) % 8) / 8 + 1;
    append(buf, at, 0, 8 - at % 8);
    buf[at / 8 + 1..end].fill(0);
}
