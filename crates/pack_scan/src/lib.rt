// The trees of a pack scanned one after another, their first bits and node counts noted.
#![tactic(auto)]

ghost use Rattle.std.specs.Prelude.{◌≡◌, ◌≤◌, ◌*◌, length, set, take};
ghost use Rattle.std.proofs.lemmas.List.Edits.{sets};
ghost use Rattle.meaning.specs.Answers.{written};
ghost use Rattle.meaning.specs.Bytes.{bits_from};
ghost use Rattle.meaning.specs.Packs.{sizes, starts};
ghost use Rattle.pack_scan.specs.Found.{found, found_of};

use string_end::tree_end;

// Stores entry k, where the list has one.
fn note(list: &mut [u32], k: usize, x: u32)
    ensures { list.new ≡ set list.old k x }
{
    if k < list.len() {
        list[k] = x;
    }
}

// Writes the first k entries of a list to the front of another.
pub fn hand_over(list: &[u32], k: usize, out: &mut [u32])
    requires k_in_bounds { k ≤ length list.now }
    requires k_in_bounds_2 { k ≤ length out.old }
    ensures { out.new ≡ written (take k list.now) out.old }
{
    out[..k].copy_from_slice(&list[..k]);
}

// Scans a pack, and notes the first bit and the node count of each tree for which the lists have an
// entry. Answers how many trees the bits of the pack hold, or the bit at which they are refused.
pub fn scan_trees(b: &[u8], n: usize, firsts: &mut [u32], counts: &mut [u32]) -> Result<u32, u32>
    requires n_bound { n ≤ 8 * length b.now }
    requires n_bound_2 { n ≤ 131071 }
    ensures result_value { found_of result ≡ found (bits_from b.now 0 n) }
    ensures firsts_after { firsts.new ≡ sets firsts.old 0 (starts (bits_from b.now 0 n)) }
    ensures counts_after { counts.new ≡ sets counts.old 0 (sizes (bits_from b.now 0 n)) }
{
    let mut trees: usize = 0;
    let mut at: usize = 0;
    while at < n {
        let end = match tree_end(b, n, at) {
            Ok(end) => end,
            Err(place) => return Err(place as u32),
        };
        note(firsts, trees, (at + 1) as u32);
        note(counts, trees, end.size as u32);
        trees += 1;
        at = end.next;
    }
    Ok(trees as u32)
}
