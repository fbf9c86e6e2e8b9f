// Lists of sets that a caller gives: whether one may be taken.
#![tactic(auto)]

ghost use Rattle.std.specs.Prelude.{◌≡◌, true, ◌↔◌};
ghost use Rattle.sets.specs.Tests.{fine as Passes};
ghost use Rattle.lent.specs.Leads.{Leads};

use sets::{Set, full, within};

// The set is below each of the others and lies within none of them.
fn leads(set: Set, others: &[Set]) -> bool
    ensures { (result ≡ true) ↔ Leads set others.now }
{
    others
        .iter()
        .all(|&other| set < other && !within(set, other))
}

// Refusal 9 is given where this is false: the list rises strictly, has no setting above the count, and no set within another.
pub fn fine(count: u32, list: &[Set]) -> bool
    ensures { result ≡ Passes count list.now }
{
    let all = full(count);
    let mut rest = list;
    while let Some((&set, others)) = rest.split_first() {
        if !within(set, all) {
            return false;
        }
        if !leads(set, others) {
            return false;
        }
        rest = others;
    }
    true
}
