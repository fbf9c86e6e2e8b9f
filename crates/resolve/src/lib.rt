// The program's function: from the frames to the lines that are put out (document 01, "The program's lines").
#![tactic(auto)]

ghost use Rattle.std.specs.Prelude.{[], ◌∷◌, ◌≤◌, length};
ghost use Rattle.setups.specs.Limits.{sets_most};
ghost use Rattle.setups.specs.Setups.{setup};
ghost use Rattle.setups.specs.Refusals.{unmet};
ghost use Rattle.lines.specs.Lines.{answer_lines, output_most, Puts};
ghost use Rattle.resolve.specs.Code.Parts.{AnswersTurn, PutsOrRefuses};
ghost use Rattle.resolve.specs.Resolve.{PutsOut, Answers, Resolves};

use lines::{LAST_LINE, LineKind, SET_LINE, put_answer, put_last, put_line, put_refusal};
use list::Listing;
use read::ReadSetup;
use sets::{EMPTY, Set};
use setups::{
    FINISHED, HARD_BYTES_MOST, Refusal, SETS_MOST, SOFT_BYTES_MOST, UNMET, settings_count,
};

// How many bytes come out at the most: two full lists of lines, and the last line.
pub const OUTPUT_MOST: usize = 2 * SETS_MOST * SET_LINE + LAST_LINE;

// "a scratch of 1,025": one place more than a list has.
const SCRATCH_PLACES: usize = SETS_MOST + 1;

type Output = [u8; OUTPUT_MOST];

// Under Unmet the empty set is the only clash.
fn put_unmet(output: &mut Output) -> usize
    requires { output_most ≤ length output.old }
    ensures { Puts (answer_lines unmet [] (0 ∷ [])) output.old result output.new }
{
    put_line(output, 0, LineKind::Clash.into(), EMPTY);
    put_last(output, SET_LINE, UNMET, 0, 1);
    SET_LINE + LAST_LINE
}

// The ways out are turned into the clashes, and both are put out.
fn put_turned(
    settings: u32,
    ways: &[Set],
    scratch: &mut [Set],
    output: &mut Output,
) -> Result<usize, Refusal>
    requires { (length ways.now ≤ sets_most) × (output_most ≤ length output.old) }
    ensures { PutsOrRefuses (AnswersTurn settings ways.now scratch.old) result output.old output.new }
{
    let mut clashes = [EMPTY; SETS_MOST];
    let filled = turn::turn(settings, ways, &mut clashes, scratch)?;
    Ok(put_answer(output, FINISHED, ways, &clashes[..filled]))
}

// The setup that was read is resolved.
fn put_resolved(count: u32, hard: &[u8], soft: &[u8], output: &mut Output) -> Result<usize, Refusal>
    requires { output_most ≤ length output.old }
    ensures { PutsOrRefuses (Answers (setup count hard.now soft.now)) result output.old output.new }
{
    let mut ways = [EMPTY; SETS_MOST];
    let mut scratch = [EMPTY; SCRATCH_PLACES];
    match list::list(count, hard, soft, &mut ways, &mut scratch)? {
        Listing::Unmet => Ok(put_unmet(output)),
        Listing::Listed(filled) => put_turned(
            settings_count(soft) as u32,
            &ways[..filled],
            &mut scratch,
            output,
        ),
    }
}

// The setup that the text says is resolved.
fn put_text(text: &[u8], output: &mut Output) -> Result<usize, Refusal>
    requires { output_most ≤ length output.old }
    ensures { PutsOrRefuses (Resolves text.now) result output.old output.new }
{
    let mut hard = [0u8; HARD_BYTES_MOST];
    let mut soft = [0u8; SOFT_BYTES_MOST];
    let ReadSetup {
        count,
        hard_filled,
        soft_filled,
    } = read::read(text, &mut hard, &mut soft)?;
    put_resolved(count, &hard[..hard_filled], &soft[..soft_filled], output)
}

// Puts out what the frames of the text are answered by, and tells how many bytes that is. The first refusal stands alone.
pub fn resolve(text: &[u8], output: &mut [u8; OUTPUT_MOST]) -> usize
    ensures { PutsOut (Resolves text.now) output.old result output.new }
{
    match put_text(text, output) {
        Ok(filled) => filled,
        Err(refusal) => put_refusal(output, refusal.into()),
    }
}
