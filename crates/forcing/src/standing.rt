// How clauses and settings stand under values of which some are free.
ghost use Rattle.std.specs.Prelude.{◌≡◌};
ghost use Rattle.setups.specs.Clauses.{clauses, all_pass};
ghost use Rattle.forcing.specs.Holding.{is_true};
ghost use Rattle.forcing.specs.Standings.{looked, Stands};

use crate::selectors::{FIRST_SELECTOR, added, next_selector};
use literals::{FREE, Values, slot, wish};
use sets::{EMPTY, Set};

// The settings that are true already, and those that are true or may still become so.
#[derive(Clone, Copy)]
pub struct Standing {
    pub sure: Set,
    pub possible: Set,
}

// A clause so far: each literal is false; one is free, and none is true; one is true.
#[derive(Clone, Copy, PartialEq, Eq)]
pub enum Chance {
    AllFalse,
    Possible,
    Sure,
}

// The clause with one literal more, whose variable has this value.
fn look(chance: Chance, literal: u8, value: u8) -> Chance
    ensures { result ≡ looked chance literal value }
{
    if value == wish(literal) {
        Chance::Sure
    } else if chance == Chance::AllFalse && FREE <= value {
        Chance::Possible
    } else {
        chance
    }
}

// Every clause has a true literal.
pub fn met(values: Values, hard: &[u8]) -> bool
    ensures { result ≡ all_pass (is_true values) (clauses hard.now) }
{
    let mut sure = false;
    for &byte in hard {
        if byte == 0 {
            if !sure {
                return false;
            }
            sure = false;
        } else {
            sure |= values[slot(byte)] == wish(byte);
        }
    }
    true
}

// One pass for both sets.
pub fn stand(values: Values, soft: &[u8]) -> Standing
    ensures { Stands values soft.now result }
{
    let mut sure = EMPTY;
    let mut possible = EMPTY;
    let mut chance = Chance::AllFalse;
    let mut selector = FIRST_SELECTOR;
    for &byte in soft {
        if byte == 0 {
            sure = added(sure, chance == Chance::Sure, selector);
            possible = added(possible, chance != Chance::AllFalse, selector);
            chance = Chance::AllFalse;
            selector = next_selector(selector);
        } else {
            chance = look(chance, byte, values[slot(byte)]);
        }
    }
    Standing { sure, possible }
}
