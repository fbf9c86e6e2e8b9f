// The sets that Turn's search has found.
ghost use Rattle.std.specs.Prelude.{◌≤◌, length, take};
ghost use Rattle.sets.specs.Lists.{Rising};
ghost use Rattle.turn.specs.Code.Rising.{rising_prop};

use sets::Set;
use setups::Refusal;

// The sets found so far, rising, in the first `filled` of the lent places.
#[derive(Drop)]
pub struct Gathered<'a> {
    places: &'a mut [Set],
    filled: usize,
    ghost few: { filled ≤ length places.now },
    ghost rising: { Rising (take filled places.now) } by { rising_prop (take filled places.now) },
}

impl<'a> Gathered<'a> {
    ghost use Rattle.std.specs.Prelude.{◌≡◌, []};
    ghost use Rattle.sets.specs.Lists.{Among};
    ghost use Rattle.turn.specs.Code.Growing.{sets_of, room_of, Inserts};

    // No set yet.
    pub fn new(places: &'a mut [Set]) -> Gathered<'a>
        ensures none { sets_of result ≡ [] }
        ensures room { room_of result ≡ length places.old }
    {
        Gathered { places, filled: 0 }
    }

    // The sets themselves.
    pub fn sets(&self) -> &[Set]
        ensures { result.now ≡ sets_of self.now }
    {
        &self.places[..self.filled]
    }

    // Puts a set in its place, if one is left; the larger ones move on by one.
    pub fn insert(&mut self, set: Set) -> Result<(), Refusal>
        requires { ¬ Among set (sets_of self.old) }
        ensures { Inserts set self.old self.new result }
    {
        let filled = self.filled;
        if filled == self.places.len() {
            return Err(Refusal::TooMany);
        }
        // The set waits behind the others and then turns to its place, so that the first `filled` rise at each step.
        let at = self.sets().partition_point(|&other| other < set);
        self.places[filled] = set;
        self.places[at..=filled].rotate_right(1);
        self.filled = filled + 1;
        Ok(())
    }
}
