// Visit and split: a visit settles forced values and hands over to a split, whose sides are visits with a free variable fewer.
ghost use Rattle.std.specs.Prelude.{◌≡◌, ◌-◌, ◌≤◌, ◌<◌, get_or};
ghost use Rattle.setups.specs.Searching;
ghost use Rattle.scans.specs.Parts.{all_of};
ghost use Rattle.search.specs.Told.{settled_of, told, sides};

use crate::Visited;
use literals::{Values, lowest_free, slot, wish};
use numbers::{Variable, value_place};
use scans::{Clauses, scan_all};
use setups::{Refusal, Seen};

// Sets forced values one by one: after each the scan starts again from the first clause. None where a clause is wholly false.
#[tactic(auto, using(crate::proofs::VisitLaws::scan_seen, setups::proofs::Visits::settle_fails, setups::proofs::Visits::settle_stops))]
fn settle(mut values: Values, clauses: Clauses) -> Option<Values>
    ensures { result ≡ settled_of (Searching.settle (all_of clauses.entry) values) }
{
    loop {
        match scan_all(&values, clauses).seen {
            Seen::AllFalse => return None,
            Seen::Enough => return Some(values),
            Seen::OneFree(literal) => values[slot(literal)] = wish(literal),
        }
    }
}

// A visit after `used` others: it fails, has a model, or hands over to a split on the lowest free variable. Every visit counts one;
// the first that would pass the budget gives up.
#[cycle(split_visit)]
#[tactic(auto, using(crate::proofs::VisitLaws::visit_told_spent, crate::proofs::VisitLaws::visit_told_none, crate::proofs::VisitLaws::visit_told_model, crate::proofs::VisitLaws::visit_told_split))]
pub fn visit(values: Values, clauses: Clauses, used: u32, budget: u32) -> Result<Visited, Refusal>
    ensures { result ≡ told budget used (Searching.visit (all_of clauses.entry) values) }
{
    if budget <= used {
        return Err(Refusal::Spent);
    }
    let count = used + 1;
    let Some(end) = settle(values, clauses) else {
        return Ok(Visited::None(count));
    };
    match lowest_free(end) {
        None => Ok(Visited::Model(end, count)),
        Some(variable) => split(end, variable, clauses, count, budget),
    }
}

// The two sides of a free variable: a visit with the value 0 and, if that side fails, one with the value 1.
#[cycle(split_visit)]
fn split(
    mut values: Values,
    variable: Variable,
    clauses: Clauses,
    used: u32,
    budget: u32,
) -> Result<Visited, Refusal>
    requires { (0 < variable.0) × (2 ≤ get_or values (variable.0 - 1) 0) }
    ensures { result ≡ told budget used (sides (all_of clauses.entry) values (variable.0 - 1)) }
{
    let at = value_place(variable);
    values[at] = 0;
    match visit(values, clauses, used, budget)? {
        Visited::None(used) => {
            values[at] = 1;
            visit(values, clauses, used, budget)
        }
        model => Ok(model),
    }
}
