// One scan over all clauses: the first that is wholly false or forces a literal decides, and its number is carried.
#![tactic(auto)]

mod clauses;

ghost use Rattle.std.specs.Prelude.{◌≡◌, ◌+◌, ◌^◌, ◌<◌};
ghost use Rattle.setups.specs.Limits.{variables_most};
ghost use Rattle.setups.specs.Clauses.{clauses, LiteralOf};
ghost use Rattle.setups.specs.Searching;
ghost use Rattle.setups.specs.Ask.{units};
ghost use Rattle.scans.specs.Scans.{decides, further, scanned, Readable, ReadableUnits};
ghost use Rattle.scans.specs.Parts.{all_of};

pub use clauses::Clauses;
use literals::{Values, see, slot};
use setups::Seen;

// What a scan decides, and how many clauses it has passed before the one that decided.
#[derive(Clone, Copy)]
pub struct Scanned {
    pub seen: Seen,
    pub passed: usize,
}

impl Scanned {
    // The clause that stopped the scan is wholly false or forces a literal; else every clause has been passed.
    fn decides(self) -> bool
        ensures { result ≡ decides self.seen }
    {
        !matches!(self.seen, Seen::Enough)
    }

    // The scan of a later part, after `passed` clauses that didn't decide.
    fn further(self, passed: usize) -> Scanned
        requires { passed + self.passed < 2 ^ 64 }
        ensures { result ≡ further passed self }
    {
        Scanned {
            passed: passed + self.passed,
            ..self
        }
    }
}

// The clause so far with one literal more.
fn see_under(values: &Values, seen: Seen, literal: u8) -> Seen
    requires { LiteralOf variables_most literal }
    ensures { result ≡ Searching.see values.now seen literal }
{
    see(seen, literal, values[slot(literal)])
}

// The clauses of one buffer; one that no 0 ends is none.
#[tactic(auto, using(crate::proofs::ScanLaws::scan_starts))]
fn scan(values: &Values, bytes: &[u8]) -> Scanned
    requires { Readable bytes.now }
    ensures { result ≡ scanned values.now (clauses bytes.now) }
{
    let mut seen = Seen::AllFalse;
    let mut passed = 0;
    for &byte in bytes {
        if byte == 0 {
            let ended = Scanned { seen, passed };
            if ended.decides() {
                return ended;
            }
            seen = Seen::AllFalse;
            passed += 1;
        } else {
            seen = see_under(values, seen, byte);
        }
    }
    Scanned {
        seen: Seen::Enough,
        passed,
    }
}

// Assumed literals, each a clause of its own.
#[tactic(auto, using(crate::proofs::ScanLaws::unit_passes, crate::proofs::ScanLaws::units_end))]
fn scan_units(values: &Values, assumed: &[u8]) -> Scanned
    requires { ReadableUnits assumed.now }
    ensures { result ≡ scanned values.now (units assumed.now) }
{
    for (passed, &literal) in assumed.iter().enumerate() {
        let seen = see_under(values, Seen::AllFalse, literal);
        let ended = Scanned { seen, passed };
        if ended.decides() {
            return ended;
        }
    }
    Scanned {
        seen: Seen::Enough,
        passed: assumed.len(),
    }
}

// The first buffer, then the second, then the assumed literals.
#[tactic(auto, using(crate::proofs::ScanLaws::part_decides, crate::proofs::ScanLaws::part_passes, crate::proofs::ScanLaws::bytes_most, crate::proofs::ScanLaws::units_most))]
pub fn scan_all(values: &Values, clauses: Clauses) -> Scanned
    ensures { result ≡ scanned values.now (all_of clauses.entry) }
{
    let one = scan(values, clauses.first);
    if one.decides() {
        return one;
    }
    let two = scan(values, clauses.second).further(one.passed);
    if two.decides() {
        return two;
    }
    scan_units(values, clauses.assumed).further(two.passed)
}
