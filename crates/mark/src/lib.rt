// Mark: how each setting fares over a list of sets (document 01, "Ways out and clashes" and "What comes back when it can't").
#![tactic(auto)]

ghost use Rattle.std.specs.Prelude.{◌≡◌, ◌-◌, ◌≤◌, ◌<◌, length};
ghost use Rattle.sets.specs.Marks.{mark as mark_at, marks as marks_of};
ghost use Rattle.setups.specs.Limits.{settings_most};
ghost use Rattle.setups.specs.Written.{written};
ghost use Rattle.mark.specs.Code.Letters.{letter_of};
ghost use Rattle.mark.specs.Marking.{Marks};

use lent::fine;
use numbers::{Selector, Setting, setting_of};
use sets::{SETTINGS_MOST, Set, has};
use setups::{Refusal, SETS_MOST};

// How a setting fares: no set has it; every set has it; some have it and some haven't.
#[derive(Clone, Copy)]
enum Letter {
    Kept,
    Lost,
    Open,
}

impl From<Letter> for u8 {
    ghost from_gives = { λ letter byte. byte ≡ letter_of letter };

    fn from(letter: Letter) -> u8 {
        match letter {
            Letter::Kept => b'K',
            Letter::Lost => b'L',
            Letter::Open => b'O',
        }
    }
}

// How the setting fares over the list, "tested in this order": the rule stands here alone.
fn fares(list: &[Set], setting: Setting) -> Letter
    requires { (0 < setting.0) × (setting.0 ≤ settings_most) }
    ensures { letter_of result ≡ mark_at list.now (setting.0 - 1) }
{
    if !list.iter().any(|&set| has(set, setting)) {
        return Letter::Kept;
    }
    if list.iter().all(|&set| has(set, setting)) {
        return Letter::Lost;
    }
    Letter::Open
}

// Writes the letters of the first `count` settings.
fn letters(count: u32, list: &[Set], marks: &mut [u8])
    requires { (count ≤ settings_most) × (count ≤ length marks.old) }
    ensures { marks.new ≡ written (marks_of count list.now) marks.old }
{
    for (i, mark) in marks[..count as usize].iter_mut().enumerate() {
        *mark = fares(list, setting_of(Selector(i as u32))).into();
    }
}

// The letter of each of the first `count` settings over the list; how many these are.
#[tactic(auto, unfolding(setups::specs::Mark::mark_result))]
pub fn mark(count: u32, list: &[Set], marks: &mut [u8]) -> Result<u32, Refusal>
    ensures { Marks count list.now marks.old result marks.new }
{
    if SETTINGS_MOST < count {
        return Err(Refusal::Softs);
    }
    if SETS_MOST < list.len() {
        return Err(Refusal::Size);
    }
    let room = marks.len();
    if room < count as usize {
        return Err(Refusal::Room);
    }
    if !fine(count, list) {
        return Err(Refusal::List);
    }
    letters(count, list, marks);
    Ok(count)
}
