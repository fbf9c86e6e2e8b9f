// What the jobs share over setups: the limits, the refusals with their numbers, a clause so far, the byte checks, and what is judged by
// them. specs/ has the definitions that every contract cites, proofs/ their laws.
#![tactic(auto)]

mod checks;
mod judging;
mod taken;

ghost use Rattle.std.specs.Prelude.{◌≡◌};
ghost use Rattle.setups.specs.Refusals.{number_of};

pub use checks::{
    clause_count, first_bad_assumed, first_bad_literal, long_place, settings_count, softs_place,
    tail_place,
};
pub use judging::judge_clauses;
pub use taken::TakenSetup;

// The limits of document 01, "Setups"; the hard bytes' is also that of an ask's clause bytes. The most variables are
// numbers::VARIABLES_MOST, the most settings sets::SETTINGS_MOST.
pub const HARD_BYTES_MOST: usize = 8192;

pub const SOFT_BYTES_MOST: usize = 2048;

pub const LITERALS_MOST: usize = 127;

pub const SETS_MOST: usize = 1024;

pub const ASSUMED_MOST: usize = 64;

// What comes back when it can't: document 01's names and numbers.
#[derive(Clone, Copy)]
pub enum Refusal {
    Vars = 1,
    Size = 2,
    Work = 3,
    Literal = 4,
    Tail = 5,
    Long = 6,
    Softs = 7,
    TooMany = 8,
    List = 9,
    Spent = 10,
    Frame = 11,
    Room = 12,
}

// The numbers of the answers that are no refusals: Model, Listed, Marked, Read and Written; Unmet; None.
pub const FINISHED: u8 = 0;

pub const UNMET: u8 = 0x80;

pub const NO_MODEL: u8 = 0x81;

// A refusal's number.
impl From<Refusal> for u8 {
    ghost from_gives = { λ refusal number. number ≡ number_of refusal };

    fn from(refusal: Refusal) -> u8 {
        refusal as u8
    }
}

// A clause so far, under values of which some are free: no true and no free literal; one free literal and no true one; a true
// literal or two free ones.
#[derive(Clone, Copy)]
pub enum Seen {
    AllFalse,
    OneFree(u8),
    Enough,
}
