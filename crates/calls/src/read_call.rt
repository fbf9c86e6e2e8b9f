// A call of Read, `R text hardroom softroom`, and its answer, `R number count hardfilled softfilled hard soft`.
use crate::answers::outcome;
use crate::caller::Caller;
use crate::fields::{Failure, Fields, room, run};
use read::ReadSetup;

pub fn answer<R: Print>(caller: &mut Caller<R>, fields: Fields) -> Result<(), Failure> {
    let [
        Some(text),
        Some(hard_room),
        Some(soft_room),
        None,
        None,
        None,
    ] = fields
    else {
        return Err(Failure::NoCall);
    };
    let text = run(text, &mut caller.first)?;
    let hard = room(hard_room, &mut caller.second)?;
    let soft = room(soft_room, &mut caller.third)?;
    caller.output.letter(b'R')?;
    let (number, setup) = outcome(read::read(text, hard, soft));
    let ReadSetup {
        count,
        hard_filled,
        soft_filled,
    } = setup;
    caller.output.begin(number, u64::from(count))?;
    caller.output.number(hard_filled as u64)?;
    caller.output.number(soft_filled as u64)?;
    caller.output.run(hard)?;
    caller.output.run(soft)?;
    Ok(())
}
