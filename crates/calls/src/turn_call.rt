// A call of Turn, `T settings list room scratchroom`, and its answer, `T number filled list scratch`.
use crate::answers::outcome;
use crate::caller::Caller;
use crate::fields::{Failure, Fields, number, room, run};

pub fn answer<R: Print>(caller: &mut Caller<R>, fields: Fields) -> Result<(), Failure> {
    let [
        Some(settings),
        Some(list),
        Some(list_room),
        Some(scratch_room),
        None,
        None,
    ] = fields
    else {
        return Err(Failure::NoCall);
    };
    let settings = number(settings)?;
    let list = run(list, &mut caller.given)?;
    let turned = room(list_room, &mut caller.list)?;
    let scratch = room(scratch_room, &mut caller.scratch)?;
    caller.output.letter(b'T')?;
    let (number, filled) = outcome(turn::turn(settings, list, turned, scratch));
    caller.output.begin(number, filled as u64)?;
    caller.output.run(turned)?;
    caller.output.run(scratch)?;
    Ok(())
}
