// A call of Ask, `A count clauses assumed budget modelroom`, and its answer, `A number visits model`.
use crate::caller::Caller;
use crate::fields::{Failure, Fields, number, room, run};
use ask::Asked;
use setups::{FINISHED, NO_MODEL};

pub fn answer<R: Print>(caller: &mut Caller<R>, fields: Fields) -> Result<(), Failure> {
    let [
        Some(count),
        Some(clauses),
        Some(assumed),
        Some(budget),
        Some(model_room),
        None,
    ] = fields
    else {
        return Err(Failure::NoCall);
    };
    let count = number(count)?;
    let clauses = run(clauses, &mut caller.first)?;
    let assumed = run(assumed, &mut caller.second)?;
    let budget = number(budget)?;
    let model = room(model_room, &mut caller.third)?;
    caller.output.letter(b'A')?;
    let (number, visits) = match ask::ask(count, clauses, assumed, budget, model) {
        Ok(Asked::Model(visits)) => (FINISHED, visits),
        Ok(Asked::None(visits)) => (NO_MODEL, visits),
        Err(refusal) => (refusal.into(), 0),
    };
    caller.output.begin(number, u64::from(visits))?;
    caller.output.run(model)?;
    Ok(())
}
