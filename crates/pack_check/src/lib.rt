// What a pack is refused for, whether it is split or joined to.
#![tactic(auto)]

ghost use Rattle.std.specs.Prelude.{Ok, ◌≡◌, ◌*◌, ◌≤◌, length};
ghost use Rattle.std.proofs.lemmas.List.Edits.{sets};
ghost use Rattle.meaning.specs.Bytes.{bits_from};
ghost use Rattle.meaning.specs.Packs.{sizes, starts};
ghost use Rattle.meaning.specs.Answers.{first_holding};
ghost use Rattle.meaning.specs.Tests.{pack_rows};

use meaning::{LEFTOVER_SET, NOT_STRING, OTHER_TREES, Refusal};
use pack_scan::scan_trees;
use string_read::leftover_set;
use table_answers::row;

// What is wrong with the first n bits as a pack of so many trees: a leftover bit, a bit that begins
// no strings, or another number of trees. If nothing is, the first bit and the node count of each
// tree for which the lists have an entry are noted.
pub fn check_and_note(
    b: &[u8],
    n: usize,
    trees: usize,
    firsts: &mut [u32],
    counts: &mut [u32],
) -> Result<(), Refusal>
    requires n_bound { n ≤ 8 * length b.now }
    requires n_bound_2 { n ≤ 131071 }
    requires trees_bound { trees ≤ 256 }
    ensures value { result ≡ first_holding (pack_rows b.now n trees) }
    ensures firsts_after { result ≡ Ok tt → firsts.new ≡ sets firsts.old 0 (starts (bits_from b.now 0 n)) }
    ensures counts_after { result ≡ Ok tt → counts.new ≡ sets counts.old 0 (sizes (bits_from b.now 0 n)) }
{
    let leftover = row(leftover_set(b, n), LEFTOVER_SET, 0);
    let pack = scan_trees(b, n, firsts, counts);
    let wanted = trees as u32;
    let held = match pack {
        Ok(found) => row(found != wanted, OTHER_TREES, found),
        Err(place) => Err(Refusal {
            code: NOT_STRING,
            place,
        }),
    };
    // the upper row wins
    leftover.and(held)
}

// What is wrong with the first n bits as a pack of so many trees, where nobody asks where the trees
// begin and how large they are.
pub fn check_pack(b: &[u8], n: usize, trees: usize) -> Result<(), Refusal>
    requires n_bound { n ≤ 8 * length b.now }
    requires n_bound_2 { n ≤ 131071 }
    requires trees_bound { trees ≤ 256 }
    ensures { result ≡ first_holding (pack_rows b.now n trees) }
{
    let mut no_firsts = [0u32; 0];
    let mut no_counts = [0u32; 0];
    check_and_note(b, n, trees, &mut no_firsts, &mut no_counts)
}
