// Rules that force values: each clause that has to be true, and each setting that has to be broken.
ghost use Rattle.std.specs.Prelude.{◌≡◌, true, false, ◌^◌, ◌<◌, length};
ghost use Rattle.std.specs.Option.{option_map};
ghost use Rattle.setups.specs.Setups.{settings};
ghost use Rattle.forcing.specs.Holding.{is_true, AllBroken};
ghost use Rattle.forcing.specs.Selectors.{Owing, OwingBoth};
ghost use Rattle.forcing.specs.Rules.{unmoved, KeepsAnswers, StillFree, EndsTrue};

use crate::selectors::{FIRST_SELECTOR, has_selector, next_selector};
use crate::values::with_false;
use literals::{Values, see, slot, wish};
use numbers::Selector;
use sets::Set;
use setups::Seen;

// The values so far, while they contradict no rule: whether a free variable got a value, and the values.
#[derive(Clone, Copy)]
pub struct Progress {
    pub moved: bool,
    pub values: Values,
}

impl Progress {
    // Where the rules start from.
    fn start(values: Values) -> Progress
        ensures { result ≡ unmoved values }
    {
        Progress {
            moved: false,
            values,
        }
    }

    // A clause ends that has to be true: it fails where it is wholly false, and makes its one free literal true.
    fn end_clause(&mut self, seen: Seen) -> Option<()>
        requires { StillFree self.old.values seen }
        ensures { KeepsAnswers (λ m. EndsTrue m seen) self.old (option_map (λ _. self.new) result) }
    {
        match seen {
            Seen::AllFalse => return None,
            Seen::OneFree(literal) => {
                self.moved = true;
                self.values[slot(literal)] = wish(literal);
            }
            Seen::Enough => {}
        }
        Some(())
    }

    // One pass over the clauses, of which those have to be true whose selector is due; it goes on after a forced literal.
    fn force<F: Fn(Selector) -> bool>(self, due: F, clauses: &[u8]) -> Option<Progress>
        requires { F.IsAlwaysCallable due }
        ensures { KeepsAnswers (λ m. Owing (λ n. F.post due (record { 0 = n }) true) (is_true m) clauses.now) self result }
    {
        let mut forced = self;
        let mut seen = Seen::AllFalse;
        let mut selector = FIRST_SELECTOR;
        for &byte in clauses {
            if byte == 0 {
                if due(selector) {
                    forced.end_clause(seen)?;
                }
                seen = Seen::AllFalse;
                selector = next_selector(selector);
            } else {
                seen = see(seen, byte, forced.values[slot(byte)]);
            }
        }
        Some(forced)
    }

    // The literal has to be false.
    fn deny(self, literal: u8) -> Option<Progress>
        ensures { KeepsAnswers (λ m. is_true m literal ≡ false) self result }
    {
        if self.values[slot(literal)] == wish(literal) {
            return None;
        }
        Some(Progress {
            values: with_false(self.values, literal),
            ..self
        })
    }
}

// The kept settings, then the hard clauses.
#[tactic(auto, using(crate::proofs::RuleLaws::answers_fewer, crate::proofs::RuleLaws::answers_then))]
pub fn force_both(values: Values, kept: Set, hard: &[u8], soft: &[u8]) -> Option<Progress>
    ensures { KeepsAnswers (λ m. OwingBoth kept (is_true m) hard.now soft.now) (unmoved values) result }
{
    let keeps = Progress::start(values).force(|selector| has_selector(kept, selector), soft)?;
    keeps.force(|_| true, hard)
}

// Each literal of a given-up setting has to be false.
pub fn give_up(values: Values, given: Set, soft: &[u8]) -> Option<Progress>
    requires { given < 2 ^ length (settings soft.now) }
    ensures { KeepsAnswers (λ m. AllBroken given (is_true m) soft.now) (unmoved values) result }
{
    let mut forced = Progress::start(values);
    let mut selector = FIRST_SELECTOR;
    for &byte in soft {
        if byte == 0 {
            selector = next_selector(selector);
        } else if has_selector(given, selector) {
            forced = forced.deny(byte)?;
        }
    }
    Some(forced)
}
