// A call of List, `L count hard soft room scratchroom`, and its answer, `L number filled list scratch`.
use crate::caller::Caller;
use crate::fields::{Failure, Fields, number, room, run};
use list::Listing;
use setups::{FINISHED, UNMET};

pub fn answer<R: Print>(caller: &mut Caller<R>, fields: Fields) -> Result<(), Failure> {
    let [
        Some(count),
        Some(hard),
        Some(soft),
        Some(list_room),
        Some(scratch_room),
        None,
    ] = fields
    else {
        return Err(Failure::NoCall);
    };
    let count = number(count)?;
    let hard = run(hard, &mut caller.first)?;
    let soft = run(soft, &mut caller.second)?;
    let ways_out = room(list_room, &mut caller.list)?;
    let scratch = room(scratch_room, &mut caller.scratch)?;
    caller.output.letter(b'L')?;
    let (number, filled) = match list::list(count, hard, soft, ways_out, scratch) {
        Ok(Listing::Listed(filled)) => (FINISHED, filled),
        Ok(Listing::Unmet) => (UNMET, 0),
        Err(refusal) => (refusal.into(), 0),
    };
    caller.output.begin(number, filled as u64)?;
    caller.output.run(ways_out)?;
    caller.output.run(scratch)?;
    Ok(())
}
