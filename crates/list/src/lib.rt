// List: all ways out of a setup, by the walk over its settings. specs/ has what each function promises, proofs/ the way from the walk to
// the answer.
#![tactic(auto)]

mod checks;

ghost use Rattle.std.specs.Prelude.{◌≡◌, ◌+◌, length};
ghost use Rattle.setups.specs.Code.SetupOf.{setup_of};
ghost use Rattle.list.specs.Code.Giving.{GivesWays};
ghost use Rattle.list.specs.Listing.{Lists};

use checks::taken_setup;
use sets::{EMPTY, Set};
use setups::{Refusal, TakenSetup};
use walk::{Node, WaysOut, enter, walk};

// What List answers: how many ways out it has listed, or that the hard clauses have no model.
#[derive(Clone, Copy)]
pub enum Listing {
    Listed(usize),
    Unmet,
}

// The ways out of a setup that is taken. They are found in one place more than the list has: if that is filled too, there are too many.
fn give_out(taken: &TakenSetup, list: &mut [Set], found: &mut [Set]) -> Result<Listing, Refusal>
    requires { length found.old ≡ length list.old + 1 }
    ensures { GivesWays (setup_of taken.now) list.old found.old result list.new found.new }
{
    let root = Node {
        left: taken.settings,
        given: EMPTY,
        kept: EMPTY,
    };
    let Some(live) = enter(taken, root, &[]) else {
        return Ok(Listing::Unmet);
    };
    let mut ways = WaysOut {
        places: found,
        filled: 0,
    };
    walk(taken, live, &mut ways);
    let WaysOut { places, filled } = ways;
    if list.len() < filled {
        return Err(Refusal::TooMany);
    }
    list[..filled].copy_from_slice(&places[..filled]);
    Ok(Listing::Listed(filled))
}

// All ways out, rising. The walk is lent the first room + 1 places of the scratch, and afterwards the whole scratch is zero; a refusal
// before the search writes nothing.
#[tactic(auto, using(crate::proofs::Answering::refused))]
pub fn list(
    count: u32,
    hard: &[u8],
    soft: &[u8],
    list: &mut [Set],
    scratch: &mut [Set],
) -> Result<Listing, Refusal>
    ensures { Lists count hard.now soft.now list.old scratch.old result list.new scratch.new }
{
    let room = list.len();
    let taken = taken_setup(count, hard, soft, room, scratch.len())?;
    let answer = give_out(&taken, list, &mut scratch[..room + 1]);
    scratch.fill(EMPTY);
    answer
}
