// The refusals of an ask that need no search. Each number is tested over all arguments before the next.
ghost use Rattle.std.specs.Prelude.{◌≡◌, ◌||◌};
ghost use Rattle.setups.specs.Refusals.{no_literal, no_clause_byte, offends};
ghost use Rattle.setups.specs.Ask.{ask_refusal};
ghost use Rattle.ask.specs.Code.Checking.{refusal_of};

use numbers::VARIABLES_MOST;
use setups::{
    ASSUMED_MOST, HARD_BYTES_MOST, Refusal, first_bad_assumed, first_bad_literal, long_place,
    tail_place,
};

// Literal, in the clauses or among the assumed literals.
#[tactic(auto, using(setups::proofs::CheckLaws::literal_found))]
fn bad_literal(count: u32, clauses: &[u8], assumed: &[u8]) -> bool
    ensures { result ≡ (offends (no_clause_byte count) clauses.now || offends (no_literal count) assumed.now) }
{
    first_bad_literal(count, clauses).is_some() || first_bad_assumed(count, assumed).is_some()
}

// The first refusal of 1, 2, 12, 4, 5, 6, with `room` places lent for a model.
#[tactic(auto, using(setups::proofs::CheckLaws::tail_found, setups::proofs::CheckLaws::long_found))]
pub fn first_refusal(count: u32, clauses: &[u8], assumed: &[u8], room: usize) -> Result<(), Refusal>
    ensures { refusal_of result ≡ ask_refusal count clauses.now assumed.now room }
{
    let variables = count as usize;
    if VARIABLES_MOST < variables {
        return Err(Refusal::Vars);
    }
    if HARD_BYTES_MOST < clauses.len() || ASSUMED_MOST < assumed.len() {
        return Err(Refusal::Size);
    }
    if room < variables {
        return Err(Refusal::Room);
    }
    if bad_literal(count, clauses, assumed) {
        return Err(Refusal::Literal);
    }
    if tail_place(clauses).is_some() {
        return Err(Refusal::Tail);
    }
    if long_place(clauses).is_some() {
        return Err(Refusal::Long);
    }
    Ok(())
}
