// Sets of settings as numbers, in code. Document 01, "Setups": "A set of settings is a 32-bit number: setting i adds 2^(i−1)."
// specs/Sets.antt says what a set is, proofs/ has the laws; a wider set is another `Set` and another SETTINGS_MOST.
#![tactic(auto)]

ghost use Rattle.std.specs.Prelude.{◌≡◌, true, ◌↔◌, ◌-◌, ◌^◌, min};
ghost use Rattle.std.specs.Int.Count.{ones};
ghost use Rattle.sets.specs.Width.{settings_most};
ghost use Rattle.sets.specs.Sets.{Share, Within, Joins, Leaves, only, AtMostOne};

use numbers::{Setting, selector_of};

// A set of settings.
pub type Set = u32;

// How many settings there are at the most: the width of a set.
pub const SETTINGS_MOST: u32 = 32;

// No setting at all.
pub const EMPTY: Set = 0;

// The set of one setting; the empty set for a number that no setting has.
pub fn only_this(setting: Setting) -> Set
    ensures { result ≡ only settings_most setting.0 }
{
    let number = setting.0;
    if number == 0 {
        return EMPTY;
    }
    if SETTINGS_MOST < number {
        return EMPTY;
    }
    let selector = selector_of(setting);
    1 << selector.0
}

// How many settings the set has.
pub fn size(set: Set) -> u32
    ensures { result ≡ ones set }
{
    u32::count_ones(set)
}

// The set has no two settings. A number and the one before it have nothing in common where the number has one digit 1 only.
#[tactic(auto, using(crate::proofs::Digits::none_in, crate::proofs::Single::one_only, crate::proofs::Single::only_one))]
pub fn at_most_one(set: Set) -> bool
    ensures { (result ≡ true) ↔ AtMostOne set }
{
    if set == EMPTY {
        return true;
    }
    set & (set - 1) == EMPTY
}

// The two sets share a setting.
#[tactic(auto, using(crate::proofs::Digits::and_share))]
pub fn meets(set: Set, other: Set) -> bool
    ensures { (result ≡ true) ↔ Share set other }
{
    set & other != EMPTY
}

// Each setting of `set` is one of `other`.
#[tactic(auto, using(crate::proofs::Digits::and_within))]
pub fn within(set: Set, other: Set) -> bool
    ensures { (result ≡ true) ↔ Within set other }
{
    set & other == set
}

// The set has the setting.
pub fn has(set: Set, setting: Setting) -> bool
    ensures { (result ≡ true) ↔ Share set (only settings_most setting.0) }
{
    meets(set, only_this(setting))
}

// The set with the setting added.
#[tactic(auto, using(crate::proofs::Digits::or_joins))]
pub fn with(set: Set, setting: Setting) -> Set
    ensures { Joins set (only settings_most setting.0) result }
{
    set | only_this(setting)
}

// The set with the setting taken out.
pub fn without(set: Set, setting: Setting) -> Set
    ensures { Leaves set (only settings_most setting.0) result }
{
    set & !only_this(setting)
}

// All of the first `count` settings; no shift reaches the width.
pub fn full(count: u32) -> Set
    ensures { result ≡ 2 ^ min count settings_most - 1 }
{
    if SETTINGS_MOST <= count {
        return !EMPTY;
    }
    (1 << count) - 1
}
