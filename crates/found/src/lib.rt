// Found sets: one setting of each has to be true.
#![tactic(auto)]

ghost use Rattle.std.specs.Prelude.{◌≡◌, true, ◌↔◌};
ghost use Rattle.sets.specs.Tests.{has};
ghost use Rattle.found.specs.FoundSets.{Fit, KeepsLast, Narrows};

use sets::{EMPTY, Set, at_most_one, meets, within};

// The only setting that is left of a set is kept.
fn keep_last(kept: Set, left: Set) -> Set
    ensures { KeepsLast kept left result }
{
    if at_most_one(left) { kept | left } else { kept }
}

// Where only the possible settings can become true: the kept settings, with those that the found sets leave no choice about. None
// where a kept setting is not possible, or no setting of a found set is.
pub fn narrow(kept: Set, possible: Set, found: &[Set]) -> Option<Set>
    ensures { Narrows kept possible found.now result }
{
    if !within(kept, possible) {
        return None;
    }
    let mut wider = kept;
    for &set in found {
        let left = set & possible;
        if left == EMPTY {
            return None;
        }
        wider = keep_last(wider, left);
    }
    Some(wider)
}

// Every kept setting and one setting of each found set is true already.
pub fn fits(kept: Set, sure: Set, found: &[Set]) -> bool
    ensures { (result ≡ true) ↔ Fit kept found.now (has sure) }
{
    within(kept, sure) && found.iter().all(|&set| meets(set, sure))
}
