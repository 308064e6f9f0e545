// Table id 0: satellites and their positions.
#![tactic(auto)]

ghost use Rattle.std.specs.Prelude.{◌≡◌, ◌+◌};
ghost use Rattle.bits.specs.Read.{Room};
ghost use Rattle.position.specs.Satellite.{orbital_at, elements_at, system_at, satellite_at};
ghost use Rattle.format.specs.At.{found_at};

use bit_reader::enough;
use bits::{Cursor, read_u};
use format::{Fault, Found, Refusal};

// Where a satellite is: a place on the orbit, or the elements of one.
#[derive(Clone, Copy)]
pub enum PositionSystem {
    Orbital {
        orbital_position: u16,
        west_east_flag: bool,
        reserved_zero_future_use: u8,
    },
    Sgp4 {
        epoch_year: u8,
        day_of_the_year: u16,
        day_fraction: u32,
        mean_motion_first_derivative: u32,
        mean_motion_second_derivative: u32,
        drag_term: u32,
        inclination: u32,
        right_ascension: u32,
        eccentricity: u32,
        argument_of_perigree: u32,
        mean_anomaly: u32,
        mean_motion: u32,
    },
}

#[derive(Clone, Copy)]
pub struct PositionV2Satellite {
    pub satellite_id: u32,
    pub position: PositionSystem,
    pub reserved_zero_future_use: u8,
}

// A place on the orbit: 24 bits, tested together.
fn read_orbital(from: Cursor<'_>) -> Result<Found<PositionSystem>, Refusal>
    ensures { result ≡ orbital_at from.entry.body.now from.entry.at }
{
    enough(from, Fault::OrbitalCut, 24)?;
    Ok(Found {
        value: PositionSystem::Orbital {
            orbital_position: from.value(0, 16) as u16,
            west_east_flag: from.value(16, 1) == 1,
            reserved_zero_future_use: from.value(17, 7) as u8,
        },
        next: from.at + 24,
    })
}

// The orbital elements from a place where all of them are there.
fn elements_at(from: Cursor<'_>) -> PositionSystem
    requires { Room from.body.now from.at 344 }
    ensures { found_at result (from.entry.at + 344) ≡ elements_at from.entry.body.now from.entry.at }
{
    PositionSystem::Sgp4 {
        epoch_year: from.value(0, 8) as u8,
        day_of_the_year: from.value(8, 16) as u16,
        day_fraction: from.value(24, 32) as u32,
        mean_motion_first_derivative: from.value(56, 32) as u32,
        mean_motion_second_derivative: from.value(88, 32) as u32,
        drag_term: from.value(120, 32) as u32,
        inclination: from.value(152, 32) as u32,
        right_ascension: from.value(184, 32) as u32,
        eccentricity: from.value(216, 32) as u32,
        argument_of_perigree: from.value(248, 32) as u32,
        mean_anomaly: from.value(280, 32) as u32,
        mean_motion: from.value(312, 32) as u32,
    }
}

// The orbital elements: 344 bits, tested together.
fn read_elements(from: Cursor<'_>) -> Result<Found<PositionSystem>, Refusal>
    ensures { result ≡ elements_at from.entry.body.now from.entry.at }
{
    enough(from, Fault::ElementsCut, 344)?;
    Ok(Found {
        value: elements_at(from),
        next: from.at + 344,
    })
}

// The position that position_system chooses. The kind is the field's number, by which the description goes: each number
// has its arm.
fn read_system(from: Cursor<'_>, kind: u64) -> Result<Found<PositionSystem>, Refusal>
    ensures { result ≡ system_at from.entry.body.now kind from.entry.at }
{
    match kind {
        0 => read_orbital(from),
        _ => read_elements(from),
    }
}

// The satellite at a place. Inlined for speed: who goes from entry to entry wants only the place behind it.
#[inline(always)]
pub fn read_satellite(from: Cursor<'_>) -> Result<Found<PositionV2Satellite>, Refusal>
    ensures { result ≡ satellite_at from.entry.body.now from.entry.at }
{
    let id = read_u(from, 24)?;
    let reserved = read_u(from.to(id.next), 7)?;
    let kind = read_u(from.to(reserved.next), 1)?;
    let position = read_system(from.to(kind.next), kind.value)?;
    Ok(Found {
        value: PositionV2Satellite {
            satellite_id: id.value as u32,
            position: position.value,
            reserved_zero_future_use: reserved.value as u8,
        },
        next: position.next,
    })
}
