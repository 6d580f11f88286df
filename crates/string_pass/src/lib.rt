// How many bytes of a word a tree passes over, with so many nodes pending. Each byte is a lane of
// the word, and what is counted is counted in all eight lanes at once.
#![tactic(auto)]

ghost use Rattle.std.specs.Prelude.{◌≡◌, ◌+◌, ◌-◌, ◌/◌, ◌^◌, ◌<◌};
ghost use Rattle.std.specs.Int.Bits.{bit_and};
ghost use Rattle.bits_lanes.specs.Lanes.{each, ones_earlier};
ghost use Rattle.string_pass.specs.Heights.{stays};
ghost use Rattle.string_pass.specs.Passes.{Passes};

use bits_lanes::count_lanes;

// The first bytes of a word that are passed over, and how many of their bits are one.
#[derive(Clone, Copy)]
pub struct Passed {
    pub bytes: usize,
    pub opened: usize,
}

// Bit i of each byte.
fn bit_of_each(word: u64, i: u32) -> u64
    requires { i < 8 }
    ensures { result ≡ each (λ x. bit_and (x / 2 ^ (7 - i)) 1) word 8 }
{
    (word >> (7 - i)) & 0x0101010101010101
}

// 128 in the lane of each byte on whose way the pending nodes do not fall below zero; they are
// counted from 128 on, so that they fall below zero where a lane's first digit goes.
fn stay_of_each(word: u64, earlier: u64, pending: u64) -> u64
    requires earlier_value { earlier ≡ ones_earlier 0 word 8 }
    requires pending_bound { pending < 64 }
    ensures { result ≡ stays 8 (128 + pending) word 8 }
{
    // The first height of each byte: eight bits less for each byte before it, and two more for each
    // one.
    let mut height = pending * 0x0101010101010101 + 2 * earlier + 0x4850586068707880;
    let mut stay: u64 = 0x8080808080808080;
    for i in 0..8 {
        height = height - 0x0101010101010101 + 2 * bit_of_each(word, i);
        stay &= height;
    }
    stay
}

// How many bytes of a word are passed over with so many nodes pending: those up to the first one in
// which they may fall below zero.
pub fn bytes_passed(word: u64, pending: usize) -> Passed
    ensures { Passes word pending result }
{
    // A word cannot take away more nodes than it has bits.
    if 64 <= pending {
        return Passed {
            bytes: 8,
            opened: u64::count_ones(word) as usize,
        };
    }
    let ones = count_lanes(word);
    let stay = stay_of_each(word, ones.earlier, pending as u64);
    if stay == 0x8080808080808080 {
        return Passed {
            bytes: 8,
            opened: ((ones.here + ones.earlier) >> 56) as usize,
        };
    }
    let bytes = u64::trailing_zeros(0x8080808080808080 - stay) / 8;
    Passed {
        bytes: bytes as usize,
        opened: ((ones.earlier >> (8 * bytes)) & 0xFF) as usize,
    }
}
