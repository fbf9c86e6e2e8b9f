// Turn: from ways out to clashes and back (document 01, "Ways out and clashes" and "What comes back when it can't").
#![tactic(auto)]

mod gathered;

ghost use Rattle.std.specs.Prelude.{◌≡◌, ◌≤◌, ◌<◌, length};
ghost use Rattle.setups.specs.Limits.{settings_most};
ghost use Rattle.turn.specs.Code.Branches.{HeldBy, TurnsOn};
ghost use Rattle.turn.specs.Code.Growing.{Ready, Grown};
ghost use Rattle.turn.specs.Code.Giving.{GivesTurn};
ghost use Rattle.turn.specs.Turning.{Turns};

use gathered::Gathered;
use lent::fine;
use members::{Unhit, choose, find_unhit, own};
use sets::{EMPTY, SETTINGS_MOST, Set, full, with, without};
use setups::{Refusal, SETS_MOST};

// A branch of the search: some settings are taken, some are left to take or leave, the others are out.
#[derive(Clone, Copy)]
struct Branch<'a> {
    members: &'a [Set],
    taken: Set,
    left: Set,
}

impl Branch<'_> {
    // Adds the sets of the branch to those found. It is empty where a taken setting has no member of its own left or a member can't be
    // hit any more.
    #[cycle(branch_split)]
    fn search(self, found: &mut Gathered) -> Result<(), Refusal>
        requires { Ready (HeldBy self) found.old }
        ensures { Grown (HeldBy self.entry) found.old found.new result }
    {
        if own(self.members, self.taken) != self.taken {
            return Ok(());
        }
        match find_unhit(self.members, self.taken, self.left) {
            Unhit::Nothing => found.insert(self.taken),
            Unhit::Hopeless => Ok(()),
            Unhit::Wants(wanted) => self.split(wanted, found),
        }
    }

    // The same for a branch each of whose sets has one of the settings `wanted`: takes one of them, then leaves it. Where the last of them
    // is left, nothing hits the member that wants them.
    #[cycle(branch_split)]
    fn split(mut self, wanted: Set, found: &mut Gathered) -> Result<(), Refusal>
        requires turns_on { TurnsOn self.members.now self.taken self.left wanted }
        requires ready { Ready (HeldBy self) found.old }
        ensures { Grown (HeldBy self.entry) found.old found.new result }
    {
        let setting = choose(wanted);
        self.left = without(self.left, setting);
        let taking = Branch {
            taken: with(self.taken, setting),
            ..self
        };
        taking.search(found)?;
        let still_wanted = without(wanted, setting);
        if still_wanted == EMPTY {
            return Ok(());
        }
        self.split(still_wanted, found)
    }
}

// Finds the turn in the lent places, as many as the list has, and copies it to the list, if it fits.
fn give_out(
    count: u32,
    given: &[Set],
    list: &mut [Set],
    places: &mut [Set],
) -> Result<usize, Refusal>
    requires { (count ≤ settings_most) × (length places.old ≡ length list.old) }
    ensures { GivesTurn count given.now list.old result list.new }
{
    let whole = Branch {
        members: given,
        taken: EMPTY,
        left: full(count),
    };
    let mut found = Gathered::new(places);
    whole.search(&mut found)?;
    let turned = found.sets();
    list[..turned.len()].copy_from_slice(turned);
    Ok(turned.len())
}

// The smallest sets that share a setting with each given set; how many these are. After the checks the scratch is zero.
#[tactic(auto, using(crate::proofs::Ends::turn_refused))]
pub fn turn(
    count: u32,
    given: &[Set],
    list: &mut [Set],
    scratch: &mut [Set],
) -> Result<usize, Refusal>
    ensures { Turns count given.now list.old scratch.old result list.new scratch.new }
{
    if SETTINGS_MOST < count {
        return Err(Refusal::Softs);
    }
    if SETS_MOST < given.len() || SETS_MOST < list.len() {
        return Err(Refusal::Size);
    }
    if scratch.len() <= list.len() {
        return Err(Refusal::Work);
    }
    if !fine(count, given) {
        return Err(Refusal::List);
    }
    let room = list.len();
    let answer = give_out(count, given, list, &mut scratch[..room]);
    scratch.fill(EMPTY);
    answer
}
