// Frames on standard input, lines on standard output (document 01, "The program's lines"). All that is decided is decided by `resolve`.
#![tactic(auto)]

use read::TEXT_MOST;
use resolve::{OUTPUT_MOST, resolve};
use std::io::{self, Read};

// One byte more than Read takes, so that a longer text is seen to be too long.
const INPUT_MOST: usize = TEXT_MOST + 1;

fn main(rt: HostRuntime) -> io::Result<()> {
    let mut input = [0u8; INPUT_MOST];
    let mut output = [0u8; OUTPUT_MOST];
    // No more comes than there are places; `copy` doesn't promise it.
    let taken = io::copy(&mut rt.stdin().take(INPUT_MOST as u64), &mut &mut input[..])?;
    let text = &input[..INPUT_MOST.min(taken as usize)];
    let filled = resolve(text, &mut output);
    rt.write_all(&output[..filled])
}
