// The words of an image, little-endian: reading and writing one.
#![tactic(auto)]

ghost use Rattle.std.specs.Prelude.{◌≡◌, ◌+◌, ◌%◌, ◌≤◌, length};
ghost use Rattle.theory.specs.Layout.{word_at};
ghost use Rattle.image_words.specs.Words.{with_word};

// The word at byte `at`, little-endian: four bytes, which become one load.
pub fn word(b: &[u8], at: usize) -> u32
    requires { at + 4 ≤ length b.now }
    ensures { result ≡ word_at b.now at }
{
    u32::from_le_bytes([b[at], b[at + 1], b[at + 2], b[at + 3]])
}

// Writes `x` at byte `at`, little-endian: four bytes, which become one store.
pub fn put_word(b: &mut [u8], at: usize, x: u32)
    requires { at + 4 ≤ length b.old }
    ensures { b.new ≡ with_word b.old at x }
{
    b[at..at + 4].copy_from_slice(&x.to_le_bytes());
}
