// A node's number moved by a question's argument, within bounds.
#![tactic(auto)]

ghost use Rattle.std.specs.Prelude.{◌≡◌, ◌≤◌};
ghost use Rattle.theory.specs.ByStrings.{within};
ghost use Rattle.ask_argument.specs.Values.{moved};

// y, if it is above low and at most high, and else 0.
pub fn in_range(low: usize, high: usize, y: usize) -> usize
    ensures { (result ≡ within low high y) × (result ≤ high) }
{
    if y <= low {
        return 0;
    }
    if high < y {
        return 0;
    }
    y
}

// x + z, and 0 where that is below 0.
pub fn shifted(x: usize, z: i64) -> usize
    requires { x ≤ 65535 }
    ensures { result ≡ moved x z }
{
    x.saturating_add_signed(z as isize)
}
