// Puts the texts on standard input through `resolve`, one after the other, as `waysout` does with one, so that anyone can hold what it
// does to another implementation. A byte 00, which no frames are written with, ends each text; the end of the input ends the last one
// too. The answers need nothing between them: each ends in its line 60.
#![tactic(auto)]

use resolve::{OUTPUT_MOST, resolve};
use std::io::{self, Read};

// How many bytes of input are taken at the most: 1 MiB.
const INPUT_MOST: usize = 0x10_0000;

type Input = [u8; INPUT_MOST];

// What ends a text.
const TEXT_END: u8 = 0;

// Writes the lines that answer a text.
fn answer(rt: &impl Print, text: &[u8]) -> io::Result<()> {
    let mut output = [0u8; OUTPUT_MOST];
    let filled = resolve(text, &mut output);
    rt.write_all(&output[..filled])
}

// Reads standard input until the places are full or it ends, and answers its texts in order.
fn answer_input(rt: &HostRuntime, places: &mut Input) -> io::Result<()> {
    // No more comes than there are places; `copy` doesn't promise it.
    let taken = io::copy(
        &mut rt.stdin().take(INPUT_MOST as u64),
        &mut &mut places[..],
    )?;
    let input = &places[..INPUT_MOST.min(taken as usize)];
    for text in input.split_inclusive(|byte| *byte == TEXT_END) {
        answer(rt, text.strip_suffix(&[TEXT_END]).unwrap_or(text))?;
    }
    Ok(())
}

fn main(rt: HostRuntime) -> io::Result<()> {
    let mut places = [0u8; INPUT_MOST];
    answer_input(&rt, &mut places)
}
