// Values of which some are free: what the clauses force under them, and how clauses and settings stand.
#![tactic(auto)]

mod forcing;
mod selectors;
mod standing;
mod values;

pub use forcing::{Progress, force_both, give_up};
pub use selectors::{FIRST_SELECTOR, has_selector, next_selector};
pub use standing::{Standing, met, stand};
pub use values::{complete, with_false, with_true};
