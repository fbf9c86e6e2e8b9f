// A call of Mark, `M settings list markroom`, and its answer, `M number filled marks`.
use crate::answers::outcome;
use crate::caller::Caller;
use crate::fields::{Failure, Fields, number, room, run};

pub fn answer<R: Print>(caller: &mut Caller<R>, fields: Fields) -> Result<(), Failure> {
    let [
        Some(settings),
        Some(list),
        Some(mark_room),
        None,
        None,
        None,
    ] = fields
    else {
        return Err(Failure::NoCall);
    };
    let settings = number(settings)?;
    let list = run(list, &mut caller.given)?;
    let marks = room(mark_room, &mut caller.first)?;
    caller.output.letter(b'M')?;
    let (number, filled) = outcome(mark::mark(settings, list, marks));
    caller.output.begin(number, u64::from(filled))?;
    caller.output.run(marks)?;
    Ok(())
}
