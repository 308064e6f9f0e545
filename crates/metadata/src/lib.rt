// Table id 4: a satellite's metadata, with the usable times that its flags announce.
#![tactic(auto)]

ghost use Rattle.std.specs.Prelude.{◌≡◌};
ghost use Rattle.std.specs.Int.{from_bool};
ghost use Rattle.bits.specs.Read.{Room};
ghost use Rattle.metadata.specs.Metadata.{interpolation, interpolation_number, usable_of, usable_at, metadata_of, metadata_at};

use bit_reader::enough;
use bits::Cursor;
use clocks::stamp_at;
use format::{Fault, Found, Refusal};

#[derive(Clone, Copy)]
pub enum InterpolationType {
    Reserved0,
    Linear,
    Lagrange,
    Reserved3,
    Hermite,
    ReservedOther(u8),
}

#[derive(Clone, Copy)]
pub struct UsableTime {
    pub year: u8,
    pub day: u16,
    pub day_fraction: u32,
    pub reserved_zero_future_use: u8,
}

#[derive(Clone, Copy)]
pub struct PositionV3Metadata {
    pub total_start_time_year: u8,
    pub total_start_time_day: u16,
    pub total_start_time_day_fraction: u32,
    pub total_stop_time_year: u8,
    pub total_stop_time_day: u16,
    pub total_stop_time_day_fraction: u32,
    pub interpolation_flag: bool,
    pub interpolation_type: InterpolationType,
    pub interpolation_degree: u8,
    pub usable_start_time: Option<UsableTime>,
    pub usable_stop_time: Option<UsableTime>,
    pub total_start_time_reserved_zero_future_use: u8,
    pub total_stop_time_reserved_zero_future_use: u8,
    pub reserved_zero_future_use: u8,
}

impl From<u8> for InterpolationType {
    // The type that the low three bits of a number code.
    ghost from_gives = { λ v t. t ≡ interpolation v };

    #[tactic(auto, unfolding(crate::specs::Metadata::interpolation))]
    fn from(v: u8) -> Self {
        match v % 8 {
            0 => InterpolationType::Reserved0,
            1 => InterpolationType::Linear,
            2 => InterpolationType::Lagrange,
            3 => InterpolationType::Reserved3,
            4 => InterpolationType::Hermite,
            other => InterpolationType::ReservedOther(other),
        }
    }
}

impl From<InterpolationType> for u8 {
    // The number that codes a type.
    ghost from_gives = { λ t v. v ≡ interpolation_number t };

    #[tactic(auto, unfolding(crate::specs::Metadata::interpolation_number))]
    fn from(kind: InterpolationType) -> u8 {
        match kind {
            InterpolationType::Reserved0 => 0,
            InterpolationType::Linear => 1,
            InterpolationType::Lagrange => 2,
            InterpolationType::Reserved3 => 3,
            InterpolationType::Hermite => 4,
            InterpolationType::ReservedOther(v) => v,
        }
    }
}

// The two conversions under the ported crate's names.
impl InterpolationType {
    pub fn from_u8(v: u8) -> Self
        ensures { result ≡ interpolation v }
    {
        InterpolationType::from(v)
    }

    pub fn to_u8(self) -> u8
        ensures { result ≡ interpolation_number self }
    {
        u8::from(self)
    }
}

// The usable time at a place where all of it is there.
fn usable_at(from: Cursor<'_>) -> UsableTime
    requires { Room from.body.now from.at 56 }
    ensures { result ≡ usable_of from.entry.body.now from.entry.at }
{
    let stamp = stamp_at(from);
    UsableTime {
        year: stamp.year,
        day: stamp.day,
        day_fraction: stamp.fraction,
        reserved_zero_future_use: stamp.reserved,
    }
}

// A usable time, there only if its flag is set; refused with a fault of the caller's where it passes the data.
fn read_usable(
    from: Cursor<'_>,
    fault: Fault,
    flag: bool,
) -> Result<Found<Option<UsableTime>>, Refusal>
    ensures { result ≡ usable_at from.entry.body.now fault (from_bool flag) from.entry.at }
{
    if !flag {
        return Ok(Found {
            value: None,
            next: from.at,
        });
    }
    enough(from, fault, 56)?;
    Ok(Found {
        value: Some(usable_at(from)),
        next: from.at + 56,
    })
}

// The metadata at a place where its fixed fields are all there, around usable times read before.
fn metadata_at(
    from: Cursor<'_>,
    start: Option<UsableTime>,
    stop: Option<UsableTime>,
) -> PositionV3Metadata
    requires { Room from.body.now from.at 120 }
    ensures { result ≡ metadata_of from.entry.body.now from.entry.at start stop }
{
    let first = stamp_at(from);
    let last = stamp_at(from.to(from.at + 56));
    PositionV3Metadata {
        total_start_time_year: first.year,
        total_start_time_day: first.day,
        total_start_time_day_fraction: first.fraction,
        total_stop_time_year: last.year,
        total_stop_time_day: last.day,
        total_stop_time_day_fraction: last.fraction,
        interpolation_flag: from.value(113, 1) == 1,
        interpolation_type: InterpolationType::from(from.value(114, 3) as u8),
        interpolation_degree: from.value(117, 3) as u8,
        usable_start_time: start,
        usable_stop_time: stop,
        total_start_time_reserved_zero_future_use: first.reserved,
        total_stop_time_reserved_zero_future_use: last.reserved,
        reserved_zero_future_use: from.value(112, 1) as u8,
    }
}

// The metadata, there only if its flag is set; a usable time within it, if its own flag is set too.
pub fn read_metadata(
    from: Cursor<'_>,
    meta: bool,
    start: bool,
    stop: bool,
) -> Result<Found<Option<PositionV3Metadata>>, Refusal>
    ensures { result ≡ metadata_at from.entry.body.now (from_bool meta) (from_bool start) (from_bool stop) from.entry.at }
{
    let none = !meta;
    if none {
        return Ok(Found {
            value: None,
            next: from.at,
        });
    }
    enough(from, Fault::MetadataCut, 120)?;
    let first = read_usable(from.to(from.at + 120), Fault::UsableStartCut, start)?;
    let last = read_usable(from.to(first.next), Fault::UsableStopCut, stop)?;
    Ok(Found {
        value: Some(metadata_at(from, first.value, last.value)),
        next: last.next,
    })
}
