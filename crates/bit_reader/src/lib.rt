// A reader that keeps its place in a lent body; each method is over the function of crate `bits` that takes the place
// by value. It may be made of any bytes, so that what reads asks for its place. And the test that a group of bits is
// there, which readers make before they take its fields.
#![tactic(auto)]

ghost use Rattle.std.specs.Prelude.{◌≡◌, ◌+◌, ◌-◌, ◌*◌, ◌≤◌, length};
ghost use Rattle.bits.specs.Read.{Place, Room};
ghost use Rattle.bit_reader.specs.Readers.{start_of, moved, reads, reads_signed, value_alone, place_after, enough_at};

use bits::Cursor;
use format::{Fault, Refusal};

#[derive(Drop)]
pub struct BitReader<'a> {
    pub data: &'a [u8],
    pub bit_pos: u16,
}

impl<'a> BitReader<'a> {
    // A reader at a body's first bit.
    pub fn new(data: &'a [u8]) -> BitReader<'a>
        ensures { result ≡ start_of «data».entry }
    {
        BitReader { data, bit_pos: 0 }
    }

    // How many bits there are from the reader's place to the end.
    pub fn remaining_bits(&self) -> usize
        requires { length self.now.«data».now ≤ 4096 }
        ensures { result ≡ 8 * length self.now.«data».now - self.now.bit_pos }
    {
        bits::remaining_bits(self.data, self.bit_pos)
    }

    // Goes on over bits that are not looked at.
    pub fn skip(&mut self, bits: u16)
        requires { Room self.old.«data».now self.old.bit_pos bits }
        ensures { self.new ≡ moved self.old (self.old.bit_pos + bits) }
    {
        self.bit_pos = bits::skip(self.data, self.bit_pos, bits);
    }

    // Reads an unsigned number and goes on behind it; a refusal leaves the place as it was.
    #[tactic(auto, unfolding(crate::specs::Readers::value_alone, crate::specs::Readers::place_after))]
    pub fn read_u(&mut self, bits: usize) -> Result<u64, Refusal>
        requires { Place self.old.«data».now self.old.bit_pos × (bits ≤ 64) }
        ensures answer { result ≡ value_alone (reads self.old bits) }
        ensures place { self.new ≡ moved self.old (place_after (reads self.old bits) self.old.bit_pos) }
    {
        let from = Cursor {
            body: self.data,
            at: self.bit_pos,
        };
        let found = bits::read_u(from, bits)?;
        self.bit_pos = found.next;
        Ok(found.value)
    }

    // The same for a signed number.
    #[tactic(auto, unfolding(crate::specs::Readers::value_alone, crate::specs::Readers::place_after))]
    pub fn read_i(&mut self, bits: usize) -> Result<i64, Refusal>
        requires { Place self.old.«data».now self.old.bit_pos × ((1 ≤ bits) × (bits ≤ 64)) }
        ensures answer { result ≡ value_alone (reads_signed self.old bits) }
        ensures place { self.new ≡ moved self.old (place_after (reads_signed self.old bits) self.old.bit_pos) }
    {
        let from = Cursor {
            body: self.data,
            at: self.bit_pos,
        };
        let found = bits::read_i(from, bits)?;
        self.bit_pos = found.next;
        Ok(found.value)
    }
}

// Tests that so many bits are there from a place on: refused with a fault of the caller's where they pass the end.
#[tactic(auto, unfolding(crate::specs::Readers::enough_at))]
pub fn enough(from: Cursor<'_>, fault: Fault, bits: usize) -> Result<(), Refusal>
    ensures { result ≡ enough_at from.entry.body.now from.entry.at fault bits }
{
    let have = bits::remaining_bits(from.body, from.at);
    if have < bits {
        return Err(Refusal {
            fault,
            need: bits,
            have,
        });
    }
    Ok(())
}
