// Selectors: the places of settings in a set, counted along a soft buffer.
ghost use Rattle.std.specs.Prelude.{◌≡◌, true, ◌↔◌};
ghost use Rattle.sets.specs.Sets.{In};
ghost use Rattle.forcing.specs.Selectors.{next_selector, Adds};

use numbers::{Selector, setting_of};
use sets::{SETTINGS_MOST, Set, has, with};

// The first setting's selector.
pub const FIRST_SELECTOR: Selector = Selector(0);

// The selector after this one; beyond the last that a set has, it stays.
pub fn next_selector(selector: Selector) -> Selector
    ensures { result.0 ≡ next_selector selector.0 }
{
    Selector(selector.0.saturating_add(1).min(SETTINGS_MOST))
}

// The set has the selector's setting.
pub fn has_selector(set: Set, selector: Selector) -> bool
    ensures { (result ≡ true) ↔ In selector.0 set }
{
    selector.0 < SETTINGS_MOST && has(set, setting_of(selector))
}

// The set with the selector's setting added, if that counts and is one that a set has.
pub fn added(set: Set, counts: bool, selector: Selector) -> Set
    ensures { Adds set counts selector.0 result }
{
    if counts && selector.0 < SETTINGS_MOST {
        with(set, setting_of(selector))
    } else {
        set
    }
}
