// Table id 2: a time association.
#![tactic(auto)]

ghost use Rattle.std.specs.Prelude.{◌≡◌, ◌≤◌, length};
ghost use Rattle.bits.specs.Read.{Room};
ghost use Rattle.association.specs.Association.{association_type_of, type_number, leap_at, reserved_at, association_at};

use bit_reader::enough;
use bits::{Cursor, value_at};
use clocks::clock_within;
use format::{Fault, Found, Refusal};

#[derive(Clone, Copy)]
pub enum AssociationType {
    UtcWithoutLeap,
    UtcWithLeap,
    Reserved(u8),
}

#[derive(Clone, Copy)]
pub struct LeapInfo {
    pub leap59: bool,
    pub leap61: bool,
    pub pastleap59: bool,
    pub pastleap61: bool,
}

// Only one type has leap flags; reserved_zero_future_use_4 is 0 there.
#[derive(Clone, Copy)]
pub struct TimeAssociationBody {
    pub association_type: AssociationType,
    pub leap_info: Option<LeapInfo>,
    pub ncr_base: u64,
    pub ncr_ext: u16,
    pub association_timestamp_seconds: u64,
    pub association_timestamp_nanoseconds: u32,
    pub reserved_zero_future_use_4: u8,
    pub ncr_reserved_zero_future_use: u8,
}

impl From<u8> for AssociationType {
    ghost from_gives = { λ v t. t ≡ association_type_of v };

    #[tactic(auto, unfolding(crate::specs::Association::association_type_of))]
    fn from(v: u8) -> Self {
        match v % 16 {
            0 => AssociationType::UtcWithoutLeap,
            1 => AssociationType::UtcWithLeap,
            m => AssociationType::Reserved(m),
        }
    }
}

impl From<AssociationType> for u8 {
    ghost from_gives = { λ t v. v ≡ type_number t };

    #[tactic(auto, unfolding(crate::specs::Association::type_number))]
    fn from(kind: AssociationType) -> u8 {
        match kind {
            AssociationType::UtcWithoutLeap => 0,
            AssociationType::UtcWithLeap => 1,
            AssociationType::Reserved(v) => v,
        }
    }
}

// The conversions under the Rust's names.
impl AssociationType {
    // The type of a number, of which the 4 low bits count.
    pub fn from_u8(v: u8) -> Self
        ensures { result ≡ association_type_of v }
    {
        AssociationType::from(v)
    }

    // The number of a type.
    pub fn to_u8(self) -> u8
        ensures { result ≡ type_number self }
    {
        u8::from(self)
    }
}

// The leap flags, where the type has them: type 1. The type is the field's number, as the description has it.
fn leap_info_of(s: &[u8], kind: u64) -> Option<LeapInfo>
    requires { Room s.now 0 152 }
    ensures { result ≡ leap_at s.now kind }
{
    if kind != 1 {
        return None;
    }
    Some(LeapInfo {
        leap59: value_at(s, 4, 1) == 1,
        leap61: value_at(s, 5, 1) == 1,
        pastleap59: value_at(s, 6, 1) == 1,
        pastleap61: value_at(s, 7, 1) == 1,
    })
}

// The reserved bits, which the other types have in their place; by the number too.
fn reserved_of(s: &[u8], kind: u64) -> u8
    requires { Room s.now 0 152 }
    ensures { result ≡ reserved_at s.now kind }
{
    match kind {
        1 => 0,
        _ => value_at(s, 4, 4) as u8,
    }
}

// The association of a body in which all of its bits are there: refused by its clock's extension alone.
fn association_of(s: &[u8]) -> Result<Found<TimeAssociationBody>, Refusal>
    requires { Room s.now 0 152 }
    ensures { result ≡ association_at s.now }
{
    let ncr = clock_within(Cursor { body: s, at: 8 })?;
    let kind = value_at(s, 0, 4);
    Ok(Found {
        value: TimeAssociationBody {
            association_type: AssociationType::from_u8(kind as u8),
            leap_info: leap_info_of(s, kind),
            ncr_base: ncr.value.base,
            ncr_ext: ncr.value.ext,
            association_timestamp_seconds: value_at(s, 56, 64),
            association_timestamp_nanoseconds: value_at(s, 120, 32) as u32,
            reserved_zero_future_use_4: reserved_of(s, kind),
            ncr_reserved_zero_future_use: ncr.value.reserved,
        },
        next: 152,
    })
}

// The association of a body: refused with number 2 where it is empty, with 9 where it is shorter than 152 bits, and by
// its clock's extension.
pub fn read_association(s: &[u8]) -> Result<Found<TimeAssociationBody>, Refusal>
    requires { length s.now ≤ 4096 }
    ensures { result ≡ association_at s.now }
{
    let from = Cursor::start(s);
    enough(from, Fault::BodyEmpty, 1)?;
    enough(from, Fault::AssociationCut, 152)?;
    association_of(s)
}
