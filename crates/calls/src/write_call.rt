// A call of Write, `W count hard soft textroom`, and its answer, `W number filled text`.
use crate::answers::outcome;
use crate::caller::Caller;
use crate::fields::{Failure, Fields, number, room, run};

pub fn answer<R: Print>(caller: &mut Caller<R>, fields: Fields) -> Result<(), Failure> {
    let [
        Some(count),
        Some(hard),
        Some(soft),
        Some(text_room),
        None,
        None,
    ] = fields
    else {
        return Err(Failure::NoCall);
    };
    let count = number(count)?;
    let hard = run(hard, &mut caller.first)?;
    let soft = run(soft, &mut caller.second)?;
    let text = room(text_room, &mut caller.third)?;
    caller.output.letter(b'W')?;
    let (number, filled) = outcome(write::write(count, hard, soft, text));
    caller.output.begin(number, filled as u64)?;
    caller.output.run(text)?;
    Ok(())
}
