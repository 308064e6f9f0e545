// A place of a body, in bits, from which fields are read.
#![tactic(auto)]

ghost use Rattle.std.specs.Prelude.{◌≡◌, ◌+◌, ◌≤◌, length};
ghost use Rattle.format.specs.Digits.{value_at};
ghost use Rattle.bits.specs.Read.{Place, Room};

use crate::value_at;

// A body, and a place in it or at its end. That a place starts a byte is asked where it matters, as `at_value`, and has
// no type: an entry's start does, a field's within need not, so that each caller would make the type anew and show the
// same.
#[derive(Clone, Copy)]
pub struct Cursor<'a> {
    pub body: &'a [u8],
    pub at: u16,
    pub ghost place: { Place body.now at },
}

impl<'a> Cursor<'a> {
    // The first bit of a body, of which the length alone is asked, as of each function that takes a whole one: a cursor
    // would hold a place that it does not use.
    pub fn start(body: &'a [u8]) -> Cursor<'a>
        requires { length body.now ≤ 4096 }
        ensures { (result.body.now ≡ body.now) × (result.at ≡ 0) }
    {
        Cursor { body, at: 0 }
    }

    // Another place of the same body; that it is one is what the type is made of.
    pub fn to(self, at: u16) -> Cursor<'a>
        requires { Place self.body.now at }
        ensures { (result.body.now ≡ self.entry.body.now) × (result.at ≡ at) }
    {
        Cursor {
            body: self.body,
            at,
        }
    }

    // The number of the bits that stand so many bits further on, and that are known to be there.
    pub fn value(self, behind: u16, bits: usize) -> u64
        requires room { Room self.body.now (self.at + behind) bits }
        requires bits_bound { bits ≤ 64 }
        ensures { result ≡ value_at self.entry.body.now (self.entry.at + behind) bits }
    {
        value_at(self.body, self.at + behind, bits)
    }
}
