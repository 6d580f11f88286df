// The string of a parent list, written after the first bits of a lent buffer.
#![tactic(auto)]

ghost use Rattle.std.specs.Prelude.{◌≡◌, ◌+◌, ◌*◌, ◌≤◌, length};
ghost use Rattle.meaning.specs.Parents.{bad_entry};
ghost use Rattle.meaning.specs.Strings.{string_of};
ghost use Rattle.bits_append.specs.Appended.{appended};

// Writes the string of a parent list after the first `from` bits of a buffer: zeros, and among them
// a one for each entry, which comes after the ones of earlier entries and as many zeros as the
// entry says.
pub fn write_string(buf: &mut [u8], from: usize, ps: &[u32])
    requires in_bounds { 1 ≤ length ps.now }
    requires ps_len_bound { length ps.now ≤ 65535 }
    requires ps_value { bad_entry ps.now ≡ 0 }
    requires from_bound { from ≤ 131071 }
    requires ps_bound { from + (2 * length ps.now + 1) ≤ 8 * length buf.old }
    ensures { buf.new ≡ appended buf.old from (string_of ps.now) }
{
    bits_append::blank(buf, from, 2 * ps.len() + 1);
    for (i, p) in ps.iter().enumerate() {
        bits_byte::set_bit(buf, from + i + *p as usize);
    }
}
