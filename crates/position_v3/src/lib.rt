// Table id 4: the header and a satellite of satellite_position_v3_info.
#![tactic(auto)]

ghost use Rattle.std.specs.Prelude.{◌≡◌, ◌%◌, ◌≤◌, length};
ghost use Rattle.position_v3.specs.PositionV3.{header_at, flags_at, front_at, satellite_v3_at};

use bit_reader::enough;
use bits::{Cursor, read_u};
use clocks::stamp_at;
use ephemeris::{CovarianceData, read_covariance, read_ephemerides};
use format::{Fault, Found, Refusal};
use metadata::{PositionV3Metadata, read_metadata};
use parts::Part;

#[derive(Clone, Copy)]
pub struct PositionV3Header {
    pub oem_version_major: u8,
    pub oem_version_minor: u8,
    pub creation_date_year: u8,
    pub creation_date_day: u16,
    pub creation_date_day_fraction: u32,
    pub creation_date_reserved_zero_future_use: u8,
}

#[derive(Clone, Copy)]
pub struct PositionV3Satellite {
    pub satellite_id: u32,
    pub usable_start_time_flag: bool,
    pub usable_stop_time_flag: bool,
    pub ephemeris_accel_flag: bool,
    pub covariance_flag: bool,
    pub metadata: Option<PositionV3Metadata>,
    pub ephemeris_data: Part,
    pub covariance: Option<CovarianceData>,
    pub reserved_zero_future_use: u8,
}

// The four flags that a satellite keeps.
#[derive(Clone, Copy)]
pub struct Flags {
    pub start: bool,
    pub stop: bool,
    pub accel: bool,
    pub covariance: bool,
}

// A satellite's fields in front of its metadata.
#[derive(Clone, Copy)]
pub struct Front {
    pub satellite_id: u32,
    pub reserved: u8,
    pub metadata: bool,
    pub flags: Flags,
}

// Reads the header of a body.
pub fn read_header(s: &[u8]) -> Result<Found<PositionV3Header>, Refusal>
    requires { length s.now ≤ 4096 }
    ensures { result ≡ header_at s.now }
{
    let from = Cursor { body: s, at: 0 };
    enough(from, Fault::BodyEmpty, 1)?;
    enough(from, Fault::HeaderCut, 64)?;
    let stamp = stamp_at(from.to(8));
    Ok(Found {
        value: PositionV3Header {
            oem_version_major: from.value(0, 4) as u8,
            oem_version_minor: from.value(4, 4) as u8,
            creation_date_year: stamp.year,
            creation_date_day: stamp.day,
            creation_date_day_fraction: stamp.fraction,
            creation_date_reserved_zero_future_use: stamp.reserved,
        },
        next: 64,
    })
}

// Reads the four flags.
fn read_flags(from: Cursor<'_>) -> Result<Found<Flags>, Refusal>
    ensures { result ≡ flags_at from.entry.body.now from.entry.at }
{
    let start = read_u(from, 1)?;
    let stop = read_u(from.to(start.next), 1)?;
    let accel = read_u(from.to(stop.next), 1)?;
    let covariance = read_u(from.to(accel.next), 1)?;
    Ok(Found {
        value: Flags {
            start: start.value == 1,
            stop: stop.value == 1,
            accel: accel.value == 1,
            covariance: covariance.value == 1,
        },
        next: covariance.next,
    })
}

// Reads a satellite's id, reserved bits and flags.
fn read_front(from: Cursor<'_>) -> Result<Found<Front>, Refusal>
    ensures { result ≡ front_at from.entry.body.now from.entry.at }
{
    let id = read_u(from, 24)?;
    let reserved = read_u(from.to(id.next), 3)?;
    let metadata = read_u(from.to(reserved.next), 1)?;
    let flags = read_flags(from.to(metadata.next))?;
    Ok(Found {
        value: Front {
            satellite_id: id.value as u32,
            reserved: reserved.value as u8,
            metadata: metadata.value == 1,
            flags: flags.value,
        },
        next: flags.next,
    })
}

// Reads the satellite at a place, which starts a byte (`at_value`; see `Cursor`).
pub fn read_satellite_v3(from: Cursor<'_>) -> Result<Found<PositionV3Satellite>, Refusal>
    requires at_value { from.at % 8 ≡ 0 }
    ensures { result ≡ satellite_v3_at from.entry.body.now from.entry.at }
{
    let front = read_front(from)?;
    let fields = front.value;
    let flags = fields.flags;
    let behind = from.to(front.next);
    let metadata = read_metadata(behind, fields.metadata, flags.start, flags.stop)?;
    let entries = read_ephemerides(from.to(metadata.next), flags.accel)?;
    let covariance = read_covariance(from.to(entries.next), flags.covariance)?;
    Ok(Found {
        value: PositionV3Satellite {
            satellite_id: fields.satellite_id,
            usable_start_time_flag: flags.start,
            usable_stop_time_flag: flags.stop,
            ephemeris_accel_flag: flags.accel,
            covariance_flag: flags.covariance,
            metadata: metadata.value,
            ephemeris_data: entries.value,
            covariance: covariance.value,
            reserved_zero_future_use: fields.reserved,
        },
        next: covariance.next,
    })
}
