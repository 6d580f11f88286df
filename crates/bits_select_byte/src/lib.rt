// The place of a one in a byte: the ones before it are removed, and the zeros in front of it are
// counted.
#![tactic(auto)]

ghost use Rattle.std.specs.Prelude.{◌≡◌, ◌≤◌};
ghost use Rattle.meaning.specs.Strings.{ones};
ghost use Rattle.theory.specs.Rank.{position};
ghost use Rattle.bits_byte.specs.Byte.{byte_bits};
ghost use Rattle.bits_select_byte.specs.Without.{Without};

use bits_byte::ones_in_byte;

// The byte without its first one: the mask keeps the bits after that one, and before it there are
// only zeros.
fn without_first(x: u8) -> u8
    requires { 1 ≤ ones (byte_bits x) }
    ensures { Without 1 0 (byte_bits x) (byte_bits result) }
{
    x & (127 >> u8::leading_zeros(x))
}

// The place, from 1, of the k-th one of a byte. The ones before it are removed: at once those of
// the first half and of the next two bits, where they come before it, and then one more. No branch
// depends on the byte, whose bits cannot be predicted: what is chosen is a number each time.
pub fn select_in_byte(x: u8, k: u32) -> u32
    requires le_k { 1 ≤ k }
    requires k_bound { k ≤ ones (byte_bits x) }
    ensures { result ≡ position (byte_bits x) k }
{
    let mut rest = x;
    let mut need = k;
    let mut passed: u32 = 0;
    let four = ones_in_byte(x >> 4);
    if four < need {
        rest = x << 4;
        need -= four;
        passed = 4;
    }
    let two = ones_in_byte(rest >> 6);
    if two < need {
        rest = rest & 0x3F;
        need -= two;
    }
    let less = without_first(rest);
    if 1 < need {
        rest = less;
    }
    passed + u8::leading_zeros(rest) + 1
}
