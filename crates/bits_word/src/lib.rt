// Eight bytes at once: the number that they are stored as, their ones, their bits as a number.
#![tactic(auto)]

ghost use Rattle.std.specs.Prelude.{◌≡◌, ◌+◌, ◌*◌, ◌≤◌, length};
ghost use Rattle.meaning.specs.Strings.{ones};
ghost use Rattle.meaning.specs.Bytes.{bits_from, number};
ghost use Rattle.bits_word.specs.Little.{little};

// The number that the eight bytes from `at` on write, the first least significant: one load,
// whatever is read around it.
pub fn stored_word(b: &[u8], at: usize) -> u64
    requires { at + 8 ≤ length b.now }
    ensures { result ≡ little b.now at 8 }
{
    u64::from_le_bytes([
        b[at],
        b[at + 1],
        b[at + 2],
        b[at + 3],
        b[at + 4],
        b[at + 5],
        b[at + 6],
        b[at + 7],
    ])
}

// How many bits of the eight bytes from `at` on are one.
pub fn ones_in_word(b: &[u8], at: usize) -> u32
    requires { at + 8 ≤ length b.now }
    ensures { result ≡ ones (bits_from b.now (8 * at) 64) }
{
    u64::count_ones(stored_word(b, at))
}

// The 64 bits from byte `at` on as a number, most significant first: one load.
pub fn whole_word(b: &[u8], at: usize) -> u64
    requires { at + 8 ≤ length b.now }
    ensures { result ≡ number 64 (bits_from b.now (8 * at) 64) }
{
    u64::from_be_bytes([
        b[at],
        b[at + 1],
        b[at + 2],
        b[at + 3],
        b[at + 4],
        b[at + 5],
        b[at + 6],
        b[at + 7],
    ])
}
