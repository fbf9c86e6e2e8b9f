// A setup that every search over it takes. What it may rely on stands in the type, so that no search asks for it.
ghost use Rattle.std.specs.Prelude.{◌≡◌};
ghost use Rattle.setups.specs.Setups.{setup, count};
ghost use Rattle.setups.specs.Code.Taken.{Taken};

// The variable count, the clauses, and how many settings there are.
#[derive(Clone, Copy)]
pub struct TakenSetup<'a> {
    pub variables: u32,
    pub hard: &'a [u8],
    pub soft: &'a [u8],
    pub settings: u32,
    ghost taken: { Taken (setup variables hard.now soft.now) },
    ghost counted: { settings ≡ count (setup variables hard.now soft.now) },
}
