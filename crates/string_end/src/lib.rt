// Where a tree ends or is refused: a labelled loop over bytes and bits.
#![tactic(auto)]

ghost use Rattle.std.specs.Prelude.{◌≡◌, ◌+◌, ◌-◌, ◌*◌, ◌/◌, ◌<◌, ◌≤◌, length};
ghost use Rattle.meaning.specs.Bytes.{bits_from};
ghost use Rattle.string_end_laws.specs.Ends.{tree_end};
ghost use Rattle.string_end.specs.Ends.{end_of};

use string_skip::{ScanState, skip_bytes};

// The end of a tree: the bits read by then, and its nodes.
#[derive(Clone, Copy)]
pub struct TreeEnd {
    pub next: usize,
    pub size: usize,
}

// Where the bits end that are in the byte of bit p and before bit n.
fn end_of_byte(p: usize, n: usize) -> usize
    requires p_lt_n { p < n }
    requires n_bound { n ≤ 131071 }
    ensures { (p < result) × (result ≤ n) × (result ≤ 8 * (p / 8) + 8) }
{
    let end = 8 * (p / 8) + 8;
    if n < end {
        return n;
    }
    end
}

// Where the tree that starts after `at` bits ends, or the bit at which it is refused.
// A loop over bytes and a loop over bits, left by the label at the bit that closes the tree or
// refuses it.
pub fn tree_end(b: &[u8], n: usize, at: usize) -> Result<TreeEnd, usize>
    requires at_le_n { at ≤ n }
    requires n_bound { n ≤ 131071 }
    requires n_bound_2 { n ≤ 8 * length b.now }
    ensures { end_of result ≡ tree_end (bits_from b.now at (n - at)) at }
{
    let mut end = Err(n + 1);
    // Nodes that are pending besides the one that is read, at first the super-root, and nodes that
    // are still allowed.
    let mut pending: usize = 0;
    let mut room: usize = 65535;
    let mut p = at;
    'tree: while p < n {
        if p % 8 == 0 {
            if at + 2 <= p {
                // Whole bytes at once, where their bits can neither close the tree nor pass the
                // limit.
                let skipped = skip_bytes(
                    b,
                    n,
                    ScanState {
                        at: p / 8,
                        pending: pending,
                        room: room,
                    },
                );
                pending = skipped.pending;
                room = skipped.room;
                p = 8 * skipped.at;
                if p == n {
                    break 'tree;
                }
            }
        }
        let byte = b[p / 8];
        let stop = end_of_byte(p, n);
        while p < stop {
            let opened = ((byte >> (7 - p % 8)) & 1) as usize;
            // A tree begins with 10, the super-root and its one child: the first bit is not 0, and
            // the second not 1.
            if p == at + opened {
                end = Err(p + 1);
                break 'tree;
            }
            // A one adds a pending node, a zero takes one away; none is left to take at the bit
            // that closes the tree.
            if pending + opened == 0 {
                end = Ok(TreeEnd {
                    next: p + 1,
                    size: 65535 - room,
                });
                break 'tree;
            }
            if room < opened {
                end = Err(p + 1);
                break 'tree;
            }
            pending = pending + 2 * opened - 1;
            room -= opened;
            p += 1;
        }
    }
    end
}
