// A clock: 48 bits, of which 33 are its base and 9 its extension. A stamp: 56 bits, a year, a day and a part of a day.
#![tactic(auto)]

ghost use Rattle.std.specs.Prelude.{◌≡◌};
ghost use Rattle.bits.specs.Read.{Room};
ghost use Rattle.clocks.specs.Clocks.{clock_at, clock_of, stamp_of};
ghost use Rattle.clocks.specs.Inner.{fields_at, tested};

use bit_reader::BitReader;
use bits::Cursor;
use format::{Fault, Found, Refusal};

#[derive(Clone, Copy)]
pub struct Clock {
    pub base: u64,
    pub reserved: u8,
    pub ext: u16,
}

#[derive(Clone, Copy)]
pub struct Stamp {
    pub year: u8,
    pub reserved: u8,
    pub day: u16,
    pub fraction: u32,
}

// Reads a clock's fields by a reader of its own; refused with number 1 at the first that goes on behind the end.
fn take_clock(from: Cursor<'_>) -> Result<Found<Clock>, Refusal>
    ensures { result ≡ fields_at from.entry.body.now from.entry.at }
{
    let mut reader = BitReader::new(from.body);
    reader.skip(from.at);
    let base = reader.read_u(33)?;
    let reserved = reader.read_u(6)?;
    let ext = reader.read_u(9)?;
    Ok(Found {
        value: Clock {
            base,
            reserved: reserved as u8,
            ext: ext as u16,
        },
        next: reader.bit_pos,
    })
}

// A clock whose fields were read: an extension above 299 is damage, and is refused with number 30.
#[tactic(auto, unfolding(crate::specs::Inner::tested))]
fn checked(found: Found<Clock>) -> Result<Found<Clock>, Refusal>
    ensures { result ≡ tested found }
{
    if found.value.ext > 299 {
        return Err(Refusal {
            fault: Fault::ExtensionTooLarge,
            need: found.value.ext as usize,
            have: 299,
        });
    }
    Ok(found)
}

// Reads a clock: refused where it is cut short, or by its extension.
pub fn read_clock(from: Cursor<'_>) -> Result<Found<Clock>, Refusal>
    ensures { result ≡ clock_at from.entry.body.now from.entry.at }
{
    let found = take_clock(from)?;
    checked(found)
}

// The fields of a clock at a place where all of it is there.
fn clock_at(from: Cursor<'_>) -> Clock
    requires { Room from.body.now from.at 48 }
    ensures { result ≡ clock_of from.entry.body.now from.entry.at }
{
    Clock {
        base: from.value(0, 33),
        reserved: from.value(33, 6) as u8,
        ext: from.value(39, 9) as u16,
    }
}

// Reads a clock of a group whose bits were found to be there; refused by its extension alone.
pub fn clock_within(from: Cursor<'_>) -> Result<Found<Clock>, Refusal>
    requires { Room from.body.now from.at 48 }
    ensures { result ≡ clock_at from.entry.body.now from.entry.at }
{
    checked(Found {
        value: clock_at(from),
        next: from.at + 48,
    })
}

// The stamp at a place where all of it is there.
pub fn stamp_at(from: Cursor<'_>) -> Stamp
    requires { Room from.body.now from.at 56 }
    ensures { result ≡ stamp_of from.entry.body.now from.entry.at }
{
    Stamp {
        year: from.value(0, 8) as u8,
        reserved: from.value(8, 7) as u8,
        day: from.value(15, 9) as u16,
        fraction: from.value(24, 32) as u32,
    }
}
