// The ways out that are found, in places that the caller lends.
ghost use Rattle.std.specs.Prelude.{◌≡◌, true, ◌↔◌, ◌+◌, ◌<◌, ◌≤◌, length, take, set};

use sets::Set;

// The places, and how many of the first hold a way out.
pub struct WaysOut<'a> {
    pub places: &'a mut [Set],
    pub filled: usize,
    ghost within: { filled ≤ length places.now },
}

impl WaysOut<'_> {
    // Those found so far.
    pub(crate) fn found(&self) -> &[Set]
        ensures { result.now ≡ take self.now.filled self.now.places.now }
    {
        &self.places[..self.filled]
    }

    // No place is left.
    pub(crate) fn is_full(&self) -> bool
        ensures { (result ≡ true) ↔ (length self.now.places.now ≤ self.now.filled) }
    {
        self.places.len() <= self.filled
    }

    // One more is put into the next place.
    pub(crate) fn push(&mut self, added: Set)
        requires { self.old.filled < length self.old.places.now }
        ensures same_places { self.new.places.ghost_name ≡ self.old.places.ghost_name }
        ensures stored { self.new.places.now ≡ set self.old.places.now self.old.filled added }
        ensures counted { self.new.filled ≡ self.old.filled + 1 }
    {
        self.places[self.filled] = added;
        self.filled += 1;
    }
}
