// Answers calls of the jobs that are read from standard input, one call a line, so that anyone can hold the library to another
// implementation. A line that is no such call, the empty line too, is answered by `?` alone.
#![tactic(auto)]

mod answers;
mod ask_call;
mod caller;
mod fields;
mod list_call;
mod mark_call;
mod places;
mod read_call;
mod turn_call;
mod write_call;

use caller::Caller;
use fields::{Failure, SPACE};
use frames::LINE_FEED;
use std::io::{self, Read};

// How many bytes of input are taken at the most: 2 MiB.
const INPUT_MOST: usize = 0x20_0000;

type Input = [u8; INPUT_MOST];

// The answer to a line that is no call.
const NO_CALL: u8 = b'?';

// Answers a line: the letter is its first field, and the fields after it are the job's; a seventh would be one too many.
fn answer<R: Print>(caller: &mut Caller<R>, line: &[u8]) -> Result<(), Failure> {
    let mut parts = line.split(|byte| *byte == SPACE);
    let letter = parts.next();
    let fields = [
        parts.next(),
        parts.next(),
        parts.next(),
        parts.next(),
        parts.next(),
        parts.next(),
    ];
    match letter {
        Some(b"A") => ask_call::answer(caller, fields),
        Some(b"L") => list_call::answer(caller, fields),
        Some(b"T") => turn_call::answer(caller, fields),
        Some(b"M") => mark_call::answer(caller, fields),
        Some(b"R") => read_call::answer(caller, fields),
        Some(b"W") => write_call::answer(caller, fields),
        _ => Err(Failure::NoCall),
    }
}

// Writes what answers a line; what lies after the last line feed is no call.
fn write_answer<R: Print>(caller: &mut Caller<R>, line: &[u8]) -> io::Result<()> {
    let answered = match line.strip_suffix(&[LINE_FEED]) {
        Some(line) => answer(caller, line),
        None => Err(Failure::NoCall),
    };
    match answered {
        Ok(()) => {}
        Err(Failure::NoCall) => caller.output.byte(NO_CALL)?,
        Err(Failure::Unwritten(error)) => return Err(error),
    }
    caller.output.byte(LINE_FEED)?;
    caller.output.flush()
}

// Answers the lines of the input in order.
fn answer_all<R: Print>(rt: &R, input: &[u8]) -> io::Result<()> {
    let mut caller = Caller::new(rt);
    for line in input.split_inclusive(|byte| *byte == LINE_FEED) {
        write_answer(&mut caller, line)?;
    }
    Ok(())
}

// Reads standard input until the places are full or it ends, and answers it.
fn answer_input(rt: &HostRuntime, places: &mut Input) -> io::Result<()> {
    // No more comes than there are places; `copy` doesn't promise it.
    let taken = io::copy(
        &mut rt.stdin().take(INPUT_MOST as u64),
        &mut &mut places[..],
    )?;
    answer_all(rt, &places[..INPUT_MOST.min(taken as usize)])
}

fn main(rt: HostRuntime) -> io::Result<()> {
    let mut places = [0u8; INPUT_MOST];
    answer_input(&rt, &mut places)
}
