// The three kinds of number that never stand for one another: a variable's, a setting's and a selector's.
// Document 01, "Setups": "Setting numbers and variable numbers are counted separately; a selector's number is neither."
#![tactic(auto)]

ghost use Rattle.std.specs.Prelude.{◌≡◌, ◌+◌, ◌-◌, ◌%◌, ◌<◌};
ghost use Rattle.numbers.specs.Numbers.{negated};
ghost use Rattle.numbers.specs.Code.Places.{value_place};

// A variable, counted from 1.
#[derive(Clone, Copy)]
pub struct Variable(pub u8);

// A setting, counted from 1 in the order of the soft buffer.
#[derive(Clone, Copy)]
pub struct Setting(pub u32);

// A setting's selector, counted from 0: the place of the setting's digit in a set.
#[derive(Clone, Copy)]
pub struct Selector(pub u32);

// How many variables there are at the most, and so how many places for their values.
pub const VARIABLES_MOST: usize = 64;

// What a negated literal's byte has beyond its variable's number.
pub const NEGATED: u8 = 128;

// The variable that a literal byte speaks of: v for the byte v, and for 128 + v.
pub fn variable_of(literal: u8) -> Variable
    ensures { result.0 ≡ literal % negated }
{
    Variable(literal % NEGATED)
}

// Where the variable's value stands: variable v at v − 1. It is a place whatever the number.
pub fn value_place(variable: Variable) -> usize
    ensures { result ≡ value_place variable.0 }
{
    (variable.0 as usize + (VARIABLES_MOST - 1)) % VARIABLES_MOST
}

// The selector of a setting.
pub fn selector_of(setting: Setting) -> Selector
    requires { 0 < setting.0 }
    ensures { result.0 ≡ setting.0 - 1 }
{
    Selector(setting.0 - 1)
}

// The setting of a selector.
pub fn setting_of(selector: Selector) -> Setting
    requires { selector.0 < 4294967295 }
    ensures { result.0 ≡ selector.0 + 1 }
{
    Setting(selector.0 + 1)
}
