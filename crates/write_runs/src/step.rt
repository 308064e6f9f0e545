// What goes along from one field of a body to the next.

ghost use Rattle.write_runs.specs.Placed.{Placed};

// Where the writing of a ledger came to: the body, the place in the ledger, the place in the body in bits, and the last
// field's number. The places are ones that the body and its ledger have. That one starts a byte is asked where it
// matters, as `at_value`, and has no type: an entry's start does, a field's need not, and each caller would show the
// same anew.
#[derive(Clone, Copy)]
pub struct Step<'a> {
    pub body: &'a [u8],
    pub place: usize,
    pub at: u16,
    pub last: u64,
    pub ghost placed: { Placed body.now at place },
}
