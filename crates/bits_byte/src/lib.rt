// One bit of bytes, read and set; the bits of a byte: the first of them kept, the ones counted.
#![tactic(auto)]

ghost use Rattle.std.specs.Prelude.{◌≡◌, [], ◌∷◌, ◌*◌, ◌<◌, ◌≤◌, length, take};
ghost use Rattle.meaning.specs.Bytes.{bit_at, value, number};
ghost use Rattle.bits_byte.specs.Lit.{lit};
ghost use Rattle.meaning.specs.Strings.{ones};
ghost use Rattle.bits_byte.specs.Byte.{byte_bits};

// The bit of `b` that p bits come before.
pub fn bit_at(b: &[u8], p: usize) -> u8
    requires { p < 8 * length b.now }
    ensures { result ≡ value (bit_at b.now p) }
{
    (b[p / 8] >> (7 - p % 8)) & 1
}

// Bit j of a byte as a number.
pub fn bit_of(x: u8, j: usize) -> usize
    requires { j < 8 }
    ensures { result ≡ value (bit_at (x ∷ []) j) }
{
    ((x >> (7 - j)) & 1) as usize
}

// Sets the bit that p bits come before.
pub fn set_bit(buf: &mut [u8], p: usize)
    requires { p < 8 * length buf.old }
    ensures { buf.new ≡ lit buf.old p }
{
    let i = p / 8;
    buf[i] = buf[i] | (0x80 >> (p % 8));
}

// The first n bits of a byte, and zeros after them.
pub fn keep(x: u8, n: usize) -> u8
    requires { n ≤ 8 }
    ensures { result ≡ number 8 (take n (byte_bits x)) }
{
    ((x as u32) & (0xFF00 >> n)) as u8
}

// How many bits of a byte are one.
pub fn ones_in_byte(x: u8) -> u32
    ensures { result ≡ ones (byte_bits x) }
{
    u8::count_ones(x)
}

// How many of the first n bits of a byte are one.
pub fn ones_in_front(x: u8, n: usize) -> u32
    requires { n ≤ 8 }
    ensures { result ≡ ones (take n (byte_bits x)) }
{
    ones_in_byte(keep(x, n))
}
