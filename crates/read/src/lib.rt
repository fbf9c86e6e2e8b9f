// Read: two passes over the frames of a text. The first checks the whole text, before the second fills the buffers.
#![tactic(auto)]

ghost use Rattle.std.specs.Prelude.{◌≡◌, ◌+◌, ◌-◌, ◌*◌, ◌/◌, ◌<◌, ◌≤◌, length, take, drop};
ghost use Rattle.std.proofs.lemmas.List.Edits.{sets};
ghost use Rattle.setups.specs.declared.Refusal.TheVariants as refusals;
ghost use Rattle.frames.specs.Code.Found.{bytes_from};
ghost use Rattle.read.specs.Texts.{ending, judge, hard_of, soft_of};
ghost use Rattle.read.specs.Code.Passes.{checked, Held};
ghost use Rattle.read.specs.Reading.{Reads};

use digits::byte_at;
use frames::{Frame, FrameReader};
use setups::Refusal;

// How many bytes a text has at the most.
pub const TEXT_MOST: usize = 32_768;

// What Read tells of a text: the variable count, and how many places of each buffer its clauses fill.
#[derive(Clone, Copy, Default)]
pub struct ReadSetup {
    pub count: u32,
    pub hard_filled: usize,
    pub soft_filled: usize,
}

// The first line that may not stand where it does, by its number from 1.
#[derive(Clone, Copy)]
struct BadLine {
    line: usize,
}

impl From<BadLine> for Refusal {
    ghost from_gives = { λ _ refusal. refusal ≡ refusals.Frame };

    fn from(_bad: BadLine) -> Refusal {
        Refusal::Frame
    }
}

// What a text says, in numbers: the header is the first line and comes once, clauses follow in any mixture, then comes FF, and
// nothing after it.
#[tactic(auto, using(crate::proofs::Passing::counts))]
fn check(text: &[u8]) -> Result<ReadSetup, BadLine>
    ensures { result ≡ checked (judge text.now) }
{
    let mut reader = FrameReader::new(text);
    let Some(first) = reader.next() else {
        return Err(BadLine { line: 1 });
    };
    let Frame::Header { count } = first.frame else {
        return Err(BadLine { line: 1 });
    };
    let mut setup = ReadSetup {
        count,
        hard_filled: 0,
        soft_filled: 0,
    };
    let mut line = 2;
    for found in reader {
        match found.frame {
            Frame::Header { count: _ } => return Err(BadLine { line }),
            Frame::Hard { literals } => setup.hard_filled += literals + 1,
            Frame::Soft { literals } => setup.soft_filled += literals + 1,
            Frame::End if found.next < text.len() => return Err(BadLine { line: line + 1 }),
            Frame::End => return Ok(setup),
        }
        line += 1;
    }
    Err(BadLine { line })
}

// Copies a clause, by the digits of its literals, to a place of the buffer, and a 0 after it; tells the place after that.
fn copy_clause(digits: &[u8], buffer: &mut [u8], place: usize) -> usize
    requires { place + length digits.now / 2 < length buffer.old }
    ensures { (result ≡ place + (length digits.now / 2 + 1)) × (buffer.new ≡ sets buffer.old place (ending (bytes_from (length digits.now / 2) digits.now))) }
{
    for (i, pair) in digits.chunks_exact(2).enumerate() {
        buffer[place + i] = byte_at(pair, 0);
    }
    let end = place + digits.len() / 2;
    buffer[end] = 0;
    end + 1
}

// The digits of a clause's literals: they end before the LF of its line, and `next` is the place after that.
fn literal_digits(text: &[u8], literals: usize, next: usize) -> &[u8]
    requires { (2 * literals < next) × (next ≤ length text.now) }
    ensures { result.now ≡ take (2 * literals) (drop (next - 1 - 2 * literals) text.now) }
{
    let end = next - 1;
    &text[end - 2 * literals..end]
}

// Copies the clauses of a good text to the buffers, which hold them.
#[tactic(auto, using(crate::proofs::Filling::fills))]
fn fill(text: &[u8], hard: &mut [u8], soft: &mut [u8])
    requires { Held text.now hard.old soft.old }
    ensures { (hard.new ≡ sets hard.old 0 (hard_of (judge text.now))) × (soft.new ≡ sets soft.old 0 (soft_of (judge text.now))) }
{
    let mut hard_place = 0;
    let mut soft_place = 0;
    for found in FrameReader::new(text) {
        match found.frame {
            Frame::Hard { literals } => {
                let digits = literal_digits(text, literals, found.next);
                hard_place = copy_clause(digits, hard, hard_place);
            }
            Frame::Soft { literals } => {
                let digits = literal_digits(text, literals, found.next);
                soft_place = copy_clause(digits, soft, soft_place);
            }
            Frame::Header { count: _ } | Frame::End => {}
        }
    }
}

// Reads a setup from lines of hexadecimal. It doesn't judge the variable count or the literals.
#[tactic(auto, using(crate::proofs::Answers::answers))]
pub fn read(text: &[u8], hard: &mut [u8], soft: &mut [u8]) -> Result<ReadSetup, Refusal>
    ensures { Reads text.now hard.old soft.old result hard.new soft.new }
{
    if TEXT_MOST < text.len() {
        return Err(Refusal::Size);
    }
    let setup = check(text)?;
    if hard.len() < setup.hard_filled || soft.len() < setup.soft_filled {
        return Err(Refusal::Room);
    }
    fill(text, hard, soft);
    Ok(setup)
}
