// Write: the setup is judged and its text measured before the first byte goes out.
#![tactic(auto)]

ghost use Rattle.std.specs.Prelude.{◌≡◌, true, ℕ, ◌+◌, ◌≤◌, length, MatchResult};
ghost use Rattle.std.proofs.lemmas.List.Edits.{sets};
ghost use Rattle.setups.specs.Clauses.{clauses};
ghost use Rattle.setups.specs.Refusals.{number_of, ended};
ghost use Rattle.frames.specs.Code.Kinds.{byte_of_kind};
ghost use Rattle.write.specs.SetupText.{clause_lines, setup_text, text_length};
ghost use Rattle.write.specs.Write.{setup_refusal};
ghost use Rattle.write.specs.Writing.{Writes};

use frames::{Kind, put_frame};
use numbers::VARIABLES_MOST;
use setups::{HARD_BYTES_MOST, Refusal, SOFT_BYTES_MOST, clause_count, judge_clauses};

// How long the header's line is: two bytes of two digits, and LF.
const HEADER_LINE: usize = 5;

// Writes a line for each clause of a buffer, and tells the place after them.
fn put_clauses(text: &mut [u8], at: usize, kind: Kind, bytes: &[u8]) -> usize
    requires { (ended bytes.now ≡ true) × (at + length (clause_lines (byte_of_kind kind) (clauses bytes.now)) ≤ length text.old) }
    ensures { (result ≡ at + length (clause_lines (byte_of_kind kind) (clauses bytes.now))) × (text.new ≡ sets text.old at (clause_lines (byte_of_kind kind) (clauses bytes.now))) }
{
    let mut to = at;
    for clause in bytes.split_inclusive(|byte| *byte == 0) {
        let literals = &clause[..clause.len() - 1];
        put_frame(text, to, u8::from(kind), literals);
        to += 2 * literals.len() + 3;
    }
    to
}

// A setup that is refused for nothing but a text buffer that is too short: none of 1, 2, 4, 5, 6 and 7 is given.
#[derive(Clone, Copy)]
struct JudgedSetup<'a> {
    count: u32,
    hard: &'a [u8],
    soft: &'a [u8],
    ghost passes: { setup_refusal count hard.now soft.now 0 ≡ 0 },
}

impl<'a> JudgedSetup<'a> {
    // Judges a setup, whatever the text buffer.
    fn judge(count: u32, hard: &'a [u8], soft: &'a [u8]) -> Result<JudgedSetup<'a>, Refusal>
        ensures { MatchResult result (λ judged. (judged.count ≡ count) × (judged.hard ≡ hard.entry) × (judged.soft ≡ soft.entry)) (λ refusal. (rest : ℕ) → number_of refusal ≡ setup_refusal count hard.now soft.now rest) }
    {
        if VARIABLES_MOST < count as usize {
            return Err(Refusal::Vars);
        }
        if HARD_BYTES_MOST < hard.len() || SOFT_BYTES_MOST < soft.len() {
            return Err(Refusal::Size);
        }
        judge_clauses(count, hard, soft)?;
        Ok(JudgedSetup { count, hard, soft })
    }

    // How long its text is: "2 × literals + 3 × clauses + 8".
    #[tactic(auto, using(crate::proofs::Refusing::sizes), unfolding(crate::specs::SetupText::text_length))]
    fn text_length(&self) -> usize
        ensures { result ≡ text_length self.now.hard.now self.now.soft.now }
    {
        let clauses = clause_count(self.hard) + clause_count(self.soft);
        let literals = self.hard.len() + self.soft.len() - clauses;
        2 * literals + 3 * clauses + 8
    }

    // Writes the header, the hard clauses, the soft clauses and FF.
    #[tactic(auto, using(crate::proofs::Refusing::stores))]
    fn put(&self, text: &mut [u8])
        requires { length (setup_text self.now.count self.now.hard.now self.now.soft.now) ≤ length text.old }
        ensures { text.new ≡ sets text.old 0 (setup_text self.now.count self.now.hard.now self.now.soft.now) }
    {
        put_frame(text, 0, u8::from(Kind::Header), &[self.count as u8]);
        let after_hard = put_clauses(text, HEADER_LINE, Kind::Hard, self.hard);
        let after_soft = put_clauses(text, after_hard, Kind::Soft, self.soft);
        put_frame(text, after_soft, u8::from(Kind::End), &[]);
    }
}

// Writes a setup as lines of hexadecimal, and tells how many places of the text buffer it filled, or why it can't.
#[tactic(auto, using(crate::proofs::Refusing::answers))]
pub fn write(count: u32, hard: &[u8], soft: &[u8], text: &mut [u8]) -> Result<usize, Refusal>
    ensures { Writes count hard.now soft.now text.old result text.new }
{
    let judged = JudgedSetup::judge(count, hard, soft)?;
    let filled = judged.text_length();
    if text.len() < filled {
        return Err(Refusal::Room);
    }
    judged.put(text);
    Ok(filled)
}
