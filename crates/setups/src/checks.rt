// The byte checks, each over one buffer: the place of the first offence, where there is one.
ghost use Rattle.std.specs.Prelude.{◌≡◌, length, position};
ghost use Rattle.setups.specs.Limits.{settings_most};
ghost use Rattle.setups.specs.Clauses.{clauses};
ghost use Rattle.setups.specs.Setups.{settings};
ghost use Rattle.setups.specs.Refusals.{no_literal, no_clause_byte};
ghost use Rattle.setups.specs.Code.Checks.{place_in, tail_place, long_place, setting_place};

use crate::LITERALS_MOST;
use numbers::variable_of;
use sets::SETTINGS_MOST;

// The byte is no literal of `count` variables.
fn no_literal(count: u32, byte: u8) -> bool
    ensures { result ≡ no_literal count byte }
{
    let variable = variable_of(byte).0;
    variable == 0 || count < variable as u32
}

// Literal, in clauses: neither an end nor a literal.
pub fn first_bad_literal(count: u32, bytes: &[u8]) -> Option<usize>
    ensures { result ≡ position (no_clause_byte count) bytes.now }
{
    bytes
        .iter()
        .position(|byte| *byte != 0 && no_literal(count, *byte))
}

// Literal, among assumed literals: a 0 is refused too.
pub fn first_bad_assumed(count: u32, assumed: &[u8]) -> Option<usize>
    ensures { result ≡ position (no_literal count) assumed.now }
{
    assumed
        .iter()
        .position(|literal| no_literal(count, *literal))
}

// Tail: the last byte isn't 0.
#[tactic(auto, using(crate::proofs::CheckLaws::tail_bad, crate::proofs::CheckLaws::tail_fine))]
pub fn tail_place(bytes: &[u8]) -> Option<usize>
    ensures { result ≡ place_in bytes.now (tail_place bytes.now) }
{
    match bytes.last() {
        Some(last) if *last != 0 => Some(bytes.len() - 1),
        _ => None,
    }
}

// Long: a clause passes LITERALS_MOST.
pub fn long_place(bytes: &[u8]) -> Option<usize>
    ensures { result ≡ place_in bytes.now (long_place 0 bytes.now) }
{
    let mut run = 0;
    for (place, byte) in bytes.iter().enumerate() {
        if *byte == 0 {
            run = 0;
        } else {
            if LITERALS_MOST <= run {
                return Some(place);
            }
            run += 1;
        }
    }
    None
}

// How many clauses a buffer has: each 0 ends one.
#[tactic(auto, using(crate::proofs::CheckLaws::clauses_counted))]
pub fn clause_count(bytes: &[u8]) -> usize
    ensures { result ≡ length (clauses bytes.now) }
{
    bytes.iter().filter(|byte| **byte == 0).count()
}

// How many settings a soft buffer has: each clause is one.
#[tactic(auto, using(crate::proofs::CheckLaws::settings_length))]
pub fn settings_count(soft: &[u8]) -> usize
    ensures { result ≡ length (settings soft.now) }
{
    clause_count(soft)
}

// Softs: one setting more than SETTINGS_MOST ends.
pub fn softs_place(soft: &[u8]) -> Option<usize>
    ensures { result ≡ place_in soft.now (setting_place settings_most soft.now) }
{
    let mut left = SETTINGS_MOST;
    for (place, byte) in soft.iter().enumerate() {
        if *byte == 0 {
            if left == 0 {
                return Some(place);
            }
            left -= 1;
        }
    }
    None
}
