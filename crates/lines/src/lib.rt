// The lines that are put out, stored in the output one after the other (document 01, "The program's lines").
#![tactic(auto)]

ghost use Rattle.std.specs.Prelude.{◌≡◌, ◌+◌, ◌*◌, ◌≤◌, length};
ghost use Rattle.std.proofs.lemmas.List.Edits.{sets};
ghost use Rattle.digits.specs.Digits.{bytes_of};
ghost use Rattle.lines.specs.Lines.{set_line, set_lines, last_line, answer_lines, refusal_lines, set_line_length, last_line_length, Puts};
ghost use Rattle.lines.specs.Code.Kinds.{byte_of_line_kind};

use frames::put_frame;
use sets::Set;

// A line's first byte tells its kind: a way out, a clash, the last line.
#[derive(Clone, Copy)]
pub enum LineKind {
    WayOut = 0x40,
    Clash = 0x50,
    Last = 0x60,
}

impl From<LineKind> for u8 {
    ghost from_gives = { λ kind byte. byte ≡ byte_of_line_kind kind };

    fn from(kind: LineKind) -> u8 {
        kind as u8
    }
}

// How many values two bytes have.
const COUNTS: usize = 0x1_0000;

// How long the line of a set is, and the last line.
pub const SET_LINE: usize = 11;

pub const LAST_LINE: usize = 13;

// Puts the line of a set.
pub fn put_line(output: &mut [u8], at: usize, kind: u8, set: Set)
    requires { at + set_line_length ≤ length output.old }
    ensures { output.new ≡ sets output.old at (set_line kind set) }
{
    put_frame(output, at, kind, &set.to_be_bytes());
}

// Puts a line for each set of a list, and tells the place after them.
fn put_lines(output: &mut [u8], at: usize, kind: LineKind, list: &[Set]) -> usize
    requires { at + set_line_length * length list.now ≤ length output.old }
    ensures { (result ≡ at + set_line_length * length list.now) × (output.new ≡ sets output.old at (set_lines (byte_of_line_kind kind) list.now)) }
{
    let kind = u8::from(kind);
    for (i, set) in list.iter().enumerate() {
        put_line(output, at + SET_LINE * i, kind, *set);
    }
    at + SET_LINE * list.len()
}

// A number in two bytes, the high one first: its last sixteen binary digits.
fn count_bytes(count: usize) -> [u8; 2]
    ensures { result ≡ bytes_of 2 count }
{
    ((count % COUNTS) as u16).to_be_bytes()
}

// Puts the last line: the outcome, and how many ways out and clashes there are.
pub fn put_last(output: &mut [u8], at: usize, outcome: u8, ways: usize, clashes: usize)
    requires { at + last_line_length ≤ length output.old }
    ensures { output.new ≡ sets output.old at (last_line outcome ways clashes) }
{
    let [ways_high, ways_low] = count_bytes(ways);
    let [clashes_high, clashes_low] = count_bytes(clashes);
    let bytes = [outcome, ways_high, ways_low, clashes_high, clashes_low];
    put_frame(output, at, u8::from(LineKind::Last), &bytes);
}

// Puts the lines of the ways out, those of the clashes and the last line, and tells how many bytes that is.
#[tactic(auto, using(crate::proofs::Stored::answer_length))]
pub fn put_answer(output: &mut [u8], outcome: u8, ways: &[Set], clashes: &[Set]) -> usize
    requires { length (answer_lines outcome ways.now clashes.now) ≤ length output.old }
    ensures { Puts (answer_lines outcome ways.now clashes.now) output.old result output.new }
{
    let after_ways_out = put_lines(output, 0, LineKind::WayOut, ways);
    let after_clashes = put_lines(output, after_ways_out, LineKind::Clash, clashes);
    put_last(output, after_clashes, outcome, ways.len(), clashes.len());
    after_clashes + LAST_LINE
}

// A refusal puts out only the last line, with both counts 0.
pub fn put_refusal(output: &mut [u8], number: u8) -> usize
    requires { last_line_length ≤ length output.old }
    ensures { Puts (refusal_lines number) output.old result output.new }
{
    put_answer(output, number, &[], &[])
}
