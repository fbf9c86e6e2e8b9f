// Values of the variables, and literals under them: where a literal's value stands, which value makes it true, and what it adds to a
// clause so far.
#![tactic(auto)]

ghost use Rattle.std.specs.Prelude.{◌≡◌, ◌≤◌};
ghost use Rattle.setups.specs.Limits.{variables_most};
ghost use Rattle.setups.specs.Clauses;
ghost use Rattle.setups.specs.Searching.{see_value};
ghost use Rattle.literals.specs.Slots;

use numbers::{NEGATED, VARIABLES_MOST, Variable, value_place, variable_of};
use setups::Seen;

// A place for each variable there can be: its value is 0 or 1, or FREE while it has none.
pub type Values = [u8; VARIABLES_MOST];

// The value of a free variable.
pub const FREE: u8 = 2;

// Each of `count` variables is free; a place that no variable has holds 0.
pub fn opening(count: u32) -> Values
    requires { count ≤ variables_most }
    ensures { result ≡ Slots.opening count }
{
    let mut values = [0u8; VARIABLES_MOST];
    values[..count as usize].fill(FREE);
    values
}

// The lowest free variable; none where every variable has a value.
pub fn lowest_free(values: Values) -> Option<Variable>
    ensures { Slots.TellsFree values result }
{
    let place = values.iter().position(|value| FREE <= *value)?;
    Some(Variable(place as u8 + 1))
}

// Where the value of the literal's variable stands.
pub fn slot(literal: u8) -> usize
    ensures { result ≡ Slots.slot literal }
{
    value_place(variable_of(literal))
}

// The value that makes the literal true.
pub fn wish(literal: u8) -> u8
    ensures { result ≡ Clauses.wish literal }
{
    u8::from(literal < NEGATED)
}

// The clause so far with one literal more, whose variable has this value.
pub fn see(seen: Seen, literal: u8, value: u8) -> Seen
    ensures { result ≡ see_value seen literal value }
{
    if value < FREE {
        return if value == wish(literal) {
            Seen::Enough
        } else {
            seen
        };
    }
    match seen {
        Seen::AllFalse => Seen::OneFree(literal),
        Seen::OneFree(other) if other == literal => seen,
        Seen::OneFree(_) | Seen::Enough => Seen::Enough,
    }
}
