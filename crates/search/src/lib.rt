// The search of an ask: visit and split call each other, free variables falling around the cycle (document 01, "One ask").
// It takes two clause buffers and assumed literals, and knows no limit on their bytes.
#![tactic(auto)]

mod visits;

use literals::Values;
pub use visits::visit;

// How a visit ended, with how many visits have been used since the search began.
#[derive(Clone, Copy)]
pub enum Visited {
    Model(Values, u32),
    None(u32),
}
