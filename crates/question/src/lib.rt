// The question under List: is there a model that meets what is asked, and which settings does it make true?
#![tactic(auto)]

mod choosing;
mod seeking;
mod sought;

ghost use Rattle.setups.specs.Code.SetupOf.{setup_of};
ghost use Rattle.question.specs.Question.{Says};

use forcing::{complete, give_up, stand};
use literals::opening;
use sets::{Set, full};
use setups::TakenSetup;
use sought::Sought;

// The settings that a model makes true which meets what is asked; None where no such model breaks every given-up setting. Kept and
// given-up settings that there are not count for nothing. The given-up ones are broken once, before the search.
pub fn question(taken: &TakenSetup, kept: Set, given: Set, found: &[Set]) -> Option<Set>
    ensures { Says (setup_of taken.now) kept given found.now result }
{
    let all = full(taken.settings);
    let start = give_up(opening(taken.variables), given & all, taken.soft)?;
    let asked = Sought {
        hard: taken.hard,
        soft: taken.soft,
        found,
    };
    let reached = asked.seek(start.values, kept & all)?;
    Some(stand(complete(reached), taken.soft).sure)
}
