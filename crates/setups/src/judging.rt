// What is judged of a setup's clauses, by the byte checks. Each number is tested over both buffers before the next.
ghost use Rattle.std.specs.Prelude.{◌≡◌, true, not, ◌||◌};
ghost use Rattle.setups.specs.Refusals.{no_clause_byte, offends, ended, long};
ghost use Rattle.setups.specs.Code.Checks.{Judges};

use crate::Refusal;
use crate::checks::{first_bad_literal, long_place, settings_count, softs_place, tail_place};

// Literal, in either buffer.
#[tactic(auto, using(crate::proofs::CheckLaws::literal_found))]
fn bad_literal(count: u32, hard: &[u8], soft: &[u8]) -> bool
    ensures { result ≡ (offends (no_clause_byte count) hard.now || offends (no_clause_byte count) soft.now) }
{
    first_bad_literal(count, hard).is_some() || first_bad_literal(count, soft).is_some()
}

// Tail, in either buffer.
fn no_end(hard: &[u8], soft: &[u8]) -> bool
    ensures { result ≡ (not (ended hard.now) || not (ended soft.now)) }
{
    tail_place(hard).is_some() || tail_place(soft).is_some()
}

// Long, in either buffer; both are ended.
#[tactic(auto, using(crate::proofs::CheckLaws::long_found))]
fn too_long(hard: &[u8], soft: &[u8]) -> bool
    requires { (ended hard.now ≡ true) × (ended soft.now ≡ true) }
    ensures { result ≡ (long hard.now || long soft.now) }
{
    long_place(hard).is_some() || long_place(soft).is_some()
}

// The first refusal of 4 to 7, or the number of settings.
#[tactic(auto, using(crate::proofs::CheckLaws::softs_found))]
pub fn judge_clauses(count: u32, hard: &[u8], soft: &[u8]) -> Result<u32, Refusal>
    ensures { Judges count hard.now soft.now result }
{
    if bad_literal(count, hard, soft) {
        return Err(Refusal::Literal);
    }
    if no_end(hard, soft) {
        return Err(Refusal::Tail);
    }
    if too_long(hard, soft) {
        return Err(Refusal::Long);
    }
    if softs_place(soft).is_some() {
        return Err(Refusal::Softs);
    }
    Ok(settings_count(soft) as u32)
}
