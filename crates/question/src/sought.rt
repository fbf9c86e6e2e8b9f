// What one question asks, apart from the settings to keep, which grow while it is searched.
use sets::Set;

// A model of the hard clauses, in which one setting of each found set is true; the soft clauses are the settings.
#[derive(Clone, Copy)]
pub struct Sought<'a> {
    pub hard: &'a [u8],
    pub soft: &'a [u8],
    pub found: &'a [Set],
}
