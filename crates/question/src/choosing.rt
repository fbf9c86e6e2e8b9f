// The choice of the next variable and value. It may be tuned without a proof: its contract says only that the variable is free.
ghost use Rattle.question.specs.Seeking.{Chosen};

use crate::seeking::Round;
use crate::sought::Sought;
use forcing::{FIRST_SELECTOR, Standing, has_selector, next_selector};
use literals::{FREE, Values, lowest_free, slot, wish};
use numbers::{NEGATED, Selector};
use sets::{EMPTY, Set, meets, size};

// A literal of the first open clause that has a false literal, or else of the first open clause: one that is owed, has no true literal
// and has a free one. Clauses that nothing touches come last, so that variables of their own don't multiply the work of the others.
fn pick<F: Fn(Selector) -> bool>(values: Values, owed: F, clauses: &[u8]) -> Option<u8>
    requires { F.IsAlwaysCallable owed }
{
    let mut untouched = None;
    let mut selector = FIRST_SELECTOR;
    // Of the clause so far: whether it has to be true and has no true literal; whether it has a false one; and a free one, while it is due.
    let mut due = owed(selector);
    let mut touched = false;
    let mut free = None;
    for &byte in clauses {
        if byte == 0 {
            if free.is_some() {
                if touched {
                    return free;
                }
                untouched = untouched.or(free);
            }
            selector = next_selector(selector);
            due = owed(selector);
            touched = false;
            free = None;
        } else if due {
            let value = values[slot(byte)];
            if FREE <= value {
                free = Some(byte);
            } else if value == wish(byte) {
                due = false;
                free = None;
            } else {
                touched = true;
            }
        }
    }
    untouched
}

// The possible settings of the found set that has fewest, of those that no true setting meets.
fn tightest(standing: Standing, found: &[Set]) -> Option<Set> {
    found
        .iter()
        .filter(|&&set| !meets(set, standing.sure))
        .map(|&set| set & standing.possible)
        .min_by_key(|&open| size(open))
}

// The lowest free variable, to be tried at 0.
fn lowest_at_zero(values: Values) -> Option<u8>
    ensures { Chosen values result }
{
    let variable = lowest_free(values)?;
    Some(NEGATED + variable.0)
}

impl Sought<'_> {
    // The settings to make true first: the kept ones that are open, or else those of the found set with fewest; none where all is met.
    fn aim(&self, round: Round) -> Option<Set> {
        let open = round.kept & !round.standing.sure;
        if open != EMPTY {
            return Some(open);
        }
        tightest(round.standing, self.found)
    }

    // A literal of a setting to make true, and where there is none, of a hard clause.
    fn propose(&self, round: Round) -> Option<u8> {
        let Some(wanted) = self.aim(round) else {
            return pick(round.values, |_| true, self.hard);
        };
        pick(
            round.values,
            |selector| has_selector(wanted, selector),
            self.soft,
        )
    }

    // What is proposed, if its variable is free.
    pub fn choose(&self, round: Round) -> Option<u8>
        ensures { Chosen round.values result }
    {
        let values = round.values;
        self.propose(round)
            .filter(|&literal| FREE <= values[slot(literal)])
            .or_else(|| lowest_at_zero(values))
    }
}
