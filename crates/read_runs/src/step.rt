// Where the reading of a ledger came to.
#![tactic(auto)]

ghost use Rattle.std.specs.Prelude.{ℕ, ◌<◌, get_or};
ghost use Rattle.read_runs.specs.Placed.{LedgerPlaced};

// The ledger, the place in it, the place in the body in bits, and the last field's number. That the ledger's bytes are
// below 256 is said since a proof does not see it of a slice within a struct. That a place of the body starts a byte is
// asked where it matters, as `at_value`, and has no type: see the writer's `Step`.
#[derive(Clone, Copy)]
pub struct Step<'a> {
    pub ledger: &'a [u8],
    pub place: usize,
    pub at: usize,
    pub last: u64,
    pub ghost placed: { LedgerPlaced ledger.now place at },
    pub ghost bytes: { (i : ℕ) → get_or ledger.now i 0 < 256 },
}
