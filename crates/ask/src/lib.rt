// Ask: is there a model of some clauses and assumed literals (document 01, "One ask")? The answer is the first model in order, with
// the visit count of the whole search; or that there is none; or a refusal, which writes nothing.
#![tactic(auto)]

mod checks;

ghost use Rattle.ask.specs.Asking.{Asks};

use checks::first_refusal;
use literals::opening;
use scans::Clauses;
use search::{Visited, visit};
use setups::Refusal;

// Model and None carry the visits of the whole search.
#[derive(Clone, Copy)]
pub enum Asked {
    Model(u32),
    None(u32),
}

// Refusals come in document 01's order, and Spent last. A model is a byte for each variable; places beyond stay as they were.
pub fn ask(
    count: u32,
    clauses: &[u8],
    assumed: &[u8],
    budget: u32,
    model: &mut [u8],
) -> Result<Asked, Refusal>
    ensures { Asks count clauses.now assumed.now budget model.old result model.new }
{
    first_refusal(count, clauses, assumed, model.len())?;
    let clauses = Clauses {
        first: clauses,
        second: b"",
        assumed,
    };
    match visit(opening(count), clauses, 0, budget)? {
        Visited::Model(values, visits) => {
            let variables = count as usize;
            model[..variables].copy_from_slice(&values[..variables]);
            Ok(Asked::Model(visits))
        }
        Visited::None(visits) => Ok(Asked::None(visits)),
    }
}
