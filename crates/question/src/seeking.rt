// The search of the question: rounds of the rules, and a split on what the chooser says. It stops as soon as what is asked is met.
ghost use Rattle.std.specs.Prelude.{◌≡◌, true, ◌↔◌};
ghost use Rattle.forcing.specs.Holding.{is_true};
ghost use Rattle.question.specs.Seeking.{Fulfils, Advances, Done, Seeks};

use crate::sought::Sought;
use forcing::{Standing, force_both, met, stand, with_false, with_true};
use found::{fits, narrow};
use literals::Values;
use sets::Set;

// The values and kept settings after each rule was put to use once; whether that made a difference; how the settings stand then.
#[derive(Clone, Copy)]
pub struct Round {
    pub moved: bool,
    pub kept: Set,
    pub standing: Standing,
    pub values: Values,
}

impl Sought<'_> {
    // Each rule once: the kept settings, the hard clauses, the found sets. None where one of them can't be met.
    fn one_round(&self, values: Values, kept: Set) -> Option<Round>
        ensures { Advances self.now kept values result }
    {
        let forced = force_both(values, kept, self.hard, self.soft)?;
        let standing = stand(forced.values, self.soft);
        let wider = narrow(kept, standing.possible, self.found)?;
        Some(Round {
            moved: forced.moved || wider != kept,
            kept: wider,
            standing,
            values: forced.values,
        })
    }

    // Rounds until one makes no difference.
    #[tactic(auto, using(crate::proofs::Rounds::left_less))]
    pub fn all_rounds(&self, values: Values, kept: Set) -> Option<Round>
        ensures { Advances self.now kept values result }
    {
        let mut last = self.one_round(values, kept)?;
        while last.moved {
            last = self.one_round(last.values, last.kept)?;
        }
        Some(last)
    }

    // What is asked is met, whatever the free values become.
    fn done(&self, round: Round) -> bool
        ensures { (result ≡ true) ↔ Done self.now round }
    {
        fits(round.kept, round.standing.sure, self.found) && met(round.values, self.hard)
    }

    // Values with which what is asked is met, whatever the free ones become: one side of a split after the other.
    pub fn seek(&self, values: Values, kept: Set) -> Option<Values>
        ensures { Seeks (λ m. Fulfils self.now kept (is_true m)) values result }
    {
        let last = self.all_rounds(values, kept)?;
        if self.done(last) {
            return Some(last.values);
        }
        let literal = self.choose(last)?;
        if let Some(reached) = self.seek(with_true(last.values, literal), last.kept) {
            return Some(reached);
        }
        self.seek(with_false(last.values, literal), last.kept)
    }
}
