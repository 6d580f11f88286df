// A table of the ones before each word of eight bytes of a block.
#![tactic(auto)]

ghost use Rattle.std.specs.Prelude.{◌≡◌, ℕ, ◌+◌, ◌*◌, ◌≤◌, ◌<◌, get_or, length, set};
ghost use Rattle.theory.specs.Tables.{sum_to};
ghost use Rattle.check_sample_table.specs.Table.{WordCounts};

use bits_word::ones_in_word;

// How many bits of each of 63 words of eight bytes from byte `at` on are one. Each by itself, so
// that they are vectorised.
pub fn count_words(b: &[u8], at: usize, table: &mut [u32; 63])
    requires at_in_bounds { at + 504 ≤ length b.now }
    requires table_len { length table.old ≡ 63 }
    ensures table_len_2 { length table.new ≡ 63 }
    ensures word_counts { WordCounts b.now at table.new }
{
    for w in 0..63 {
        table[w] = ones_in_word(b, at + 8 * w);
    }
}

// Puts `sum` in the place of number w, and adds that number to it.
fn put_before(table: &mut [u32; 63], w: usize, sum: u32) -> u32
    requires table_len { length table.old ≡ 63 }
    requires w_bound { w < 63 }
    requires w_bound_2 { get_or table.old w 0 ≤ 64 }
    requires sum_bound { sum ≤ 64 * w }
    ensures table_after { table.new ≡ set table.old w sum }
    ensures value { result ≡ sum + get_or table.old w 0 }
{
    let next = sum + table[w];
    table[w] = sum;
    next
}

// Puts in the place of each number what those before it come to. Three in a turn: a turn of one is
// mostly the loop's own.
pub fn add_up(table: &mut [u32; 63])
    requires table_len { length table.old ≡ 63 }
    requires by_index { (w : ℕ) → w < 63 → get_or table.old w 0 ≤ 64 }
    ensures { (w : ℕ) → w < 63 → get_or table.new w 0 ≡ sum_to table.old w }
{
    let mut sum: u32 = 0;
    for turn in 0..21 {
        sum = put_before(table, 3 * turn, sum);
        sum = put_before(table, 3 * turn + 1, sum);
        sum = put_before(table, 3 * turn + 2, sum);
    }
}
