// The check of a parent list: the lowest offending entry, and what a list that is written is
// refused for.
#![tactic(auto)]

ghost use Rattle.std.specs.Prelude.{◌≡◌, ◌≤◌, length};
ghost use Rattle.meaning.specs.Parents.{bad_entry};
ghost use Rattle.theory.specs.Places.{place_of};
ghost use Rattle.meaning.specs.Answers.{first_holding};
ghost use Rattle.meaning.specs.Tests.{parent_rows};

use meaning::{MOST_NODES, NOT_PARENTS, Refusal, WRONG_SIZE};

// The lowest entry that breaks the rule of a parent list, from 1, if there is one.
pub fn bad_entry(ps: &[u32]) -> Option<usize>
    requires in_bounds { 1 ≤ length ps.now }
    requires ps_len_bound { length ps.now ≤ 65535 }
    ensures { result ≡ place_of (bad_entry ps.now) }
{
    if ps[0] != 0 {
        return Some(1);
    }
    let mut low: u32 = 1;
    for i in 1..ps.len() {
        let p = ps[i];
        if p < low {
            return Some(i + 1);
        }
        if p as usize > i {
            return Some(i + 1);
        }
        low = p;
    }
    None
}

// What is wrong with a parent list that is to be written: its count, or its lowest offending entry.
pub fn parents_refusal(parents: &[u32]) -> Result<(), Refusal>
    ensures { result ≡ first_holding (parent_rows parents.now) }
{
    let nodes = parents.len();
    if nodes < 1 {
        return Err(Refusal {
            code: WRONG_SIZE,
            place: 0,
        });
    }
    if MOST_NODES < nodes {
        return Err(Refusal {
            code: WRONG_SIZE,
            place: 0,
        });
    }
    match bad_entry(parents) {
        Some(entry) => Err(Refusal {
            code: NOT_PARENTS,
            place: entry as u32,
        }),
        None => Ok(()),
    }
}
