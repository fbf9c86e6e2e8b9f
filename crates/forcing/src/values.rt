// Values of variables, by place: what is set, and what becomes of the free ones.
ghost use Rattle.std.specs.Prelude.{◌≡◌, ◌-◌, set};
ghost use Rattle.setups.specs.Clauses;
ghost use Rattle.literals.specs.Slots.{slot};
ghost use Rattle.forcing.specs.Values.{Completes};

use literals::{FREE, Values, slot, wish};

// Free values become 0.
pub fn complete(values: Values) -> Values
    ensures { Completes values result }
{
    let mut model = values;
    for value in &mut model {
        if FREE <= *value {
            *value = 0;
        }
    }
    model
}

// The literal's variable gets this value.
fn with_value(values: Values, literal: u8, value: u8) -> Values
    ensures { result ≡ set values (slot literal) value }
{
    let mut changed = values;
    changed[slot(literal)] = value;
    changed
}

// The literal becomes true.
pub fn with_true(values: Values, literal: u8) -> Values
    ensures { result ≡ set values (slot literal) (Clauses.wish literal) }
{
    with_value(values, literal, wish(literal))
}

// The literal becomes false.
pub fn with_false(values: Values, literal: u8) -> Values
    ensures { result ≡ set values (slot literal) (1 - Clauses.wish literal) }
{
    with_value(values, literal, 1 - wish(literal))
}
