// Where each level of a parent list begins, found in one walk along the list.
#![tactic(auto)]

ghost use Rattle.std.specs.Prelude.{◌≡◌, ℕ, ◌≤◌, ◌<◌, get_or, length};
ghost use Rattle.meaning.specs.Trees.{Tree};
ghost use Rattle.meaning.specs.Parents.{IsParents, parents};
ghost use Rattle.meaning.specs.Listing.{deep, listing};
ghost use Rattle.theory.specs.Places.{place_of};
ghost use Rattle.text_walk.specs.Walk.{Started};

// Sets the cursor of each level to the number before its first node. All cursors are n at first,
// and those of levels that do not come stay so. Answers the first node of a 65th level, if there is
// one: it is the first at depth 64 in the listing of the root.
pub fn find_levels(list: &[u32], levels: &mut [u32; 66]) -> Option<u32>
    requires parents { IsParents list.now }
    requires list_len_bound { length list.now ≤ 65535 }
    requires levels_len { length levels.old ≡ 66 }
    requires by_index { (e : ℕ) → e < 66 → get_or levels.old e 0 ≡ length list.now }
    ensures value { result ≡ place_of (deep (listing 65 list.now 1 0)) }
    ensures started { (t : Tree) → parents t ≡ list.now → result ≡ None → Started t levels.new }
{
    levels[0] = 0;
    levels[1] = 0;
    // the level of the nodes up to number i, and the number before its first node
    let mut level: usize = 1;
    let mut before: usize = 0;
    for (i, p) in list.iter().enumerate() {
        // the parent is in that level itself: a new one begins
        if before < *p as usize {
            if level == 64 {
                return Some(i as u32 + 1);
            }
            level += 1;
            levels[level] = i as u32;
            before = i;
        }
    }
    None
}
