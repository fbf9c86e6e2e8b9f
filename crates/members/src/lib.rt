// The members of the given list under the settings that Turn has taken: which taken setting hits a member alone, which members are left
// unhit, and which settings they want (document 01: "the sets that share a setting with each member").
#![tactic(auto)]

ghost use Rattle.std.specs.Prelude.{◌≡◌, ◌⊎◌, ◌≢◌, ◌↔◌, ℕ, Some};
ghost use Rattle.sets.specs.Width.{settings_most};
ghost use Rattle.sets.specs.Sets.{In, Share, only};
ghost use Rattle.members.specs.Members.{Alone, Own, Finds};

use numbers::Setting;
use sets::{EMPTY, Set, at_most_one, meets, size};

// What the taken settings leave unhit: nothing; a member that no setting left hits either; or a member that wants one of these
// settings left.
#[derive(Clone, Copy)]
pub enum Unhit {
    Nothing,
    Hopeless,
    Wants(Set),
}

// The taken setting that alone hits the member; the empty set where none or several do.
#[tactic(auto, using(crate::proofs::Members::alone_one, crate::proofs::Members::alone_several))]
fn alone(member: Set, taken: Set) -> Set
    ensures { (i : ℕ) → In i result ↔ Alone member taken i }
{
    let hit = member & taken;
    if at_most_one(hit) { hit } else { EMPTY }
}

// The taken settings that have a member of their own.
pub fn own(members: &[Set], taken: Set) -> Set
    ensures { (i : ℕ) → In i result ↔ Own members.now taken i }
{
    let mut found = EMPTY;
    for &member in members {
        found |= alone(member, taken);
    }
    found
}

// Of what two unhit members want the fewer settings; what the first wants where there is no other yet.
fn fewer(wanted: Set, other: Option<Set>) -> Set
    ensures { (result ≡ wanted) ⊎ (other ≡ Some result) }
{
    match other {
        Some(other) if size(other) <= size(wanted) => other,
        _ => wanted,
    }
}

// What the taken settings leave unhit; of all unhit members it is the one with the fewest settings left.
pub fn find_unhit(members: &[Set], taken: Set, left: Set) -> Unhit
    ensures { Finds members.now taken left result }
{
    let mut fewest = None;
    for &member in members {
        if !meets(taken, member) {
            let wanted = member & left;
            if wanted == EMPTY {
                return Unhit::Hopeless;
            }
            fewest = Some(fewer(wanted, fewest));
        }
    }
    match fewest {
        None => Unhit::Nothing,
        Some(wanted) => Unhit::Wants(wanted),
    }
}

// The next setting, of those left that are wanted. The contract says no more, so that the choice can be tuned without a proof.
pub fn choose(left: Set) -> Setting
    requires { left ≢ 0 }
    ensures { Share left (only settings_most result.0) }
{
    Setting(left.trailing_zeros() + 1)
}
