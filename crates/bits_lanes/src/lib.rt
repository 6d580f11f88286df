// The eight bytes of a word, each a lane of eight digits: the ones of every byte counted at once.
#![tactic(auto)]

ghost use Rattle.std.specs.Prelude.{◌≡◌};
ghost use Rattle.bits_lanes.specs.Lanes.{each, ones_earlier, ones_in};

// The ones of each byte of a word, and those of all earlier bytes.
#[derive(Clone, Copy)]
pub struct Ones {
    pub here: u64,
    pub earlier: u64,
}

// The ones of each byte: sums of two digits, of four and of eight.
fn ones_of_each(word: u64) -> u64
    ensures { result ≡ each ones_in word 8 }
{
    let two = word - ((word >> 1) & 0x5555555555555555);
    let four = (two & 0x3333333333333333) + ((two >> 2) & 0x3333333333333333);
    (four & 0x0F0F0F0F0F0F0F0F) + ((four >> 4) & 0x0F0F0F0F0F0F0F0F)
}

// The ones of each byte, and those of all earlier bytes: moved on by one byte, and then by one, two
// and four more, each sum is added to the next.
pub fn count_lanes(word: u64) -> Ones
    ensures { (result.here ≡ each ones_in word 8) × (result.earlier ≡ ones_earlier 0 word 8) }
{
    let here = ones_of_each(word);
    let one = here << 8;
    let two = one + (one << 8);
    let four = two + (two << 16);
    Ones {
        here,
        earlier: four + (four << 32),
    }
}
