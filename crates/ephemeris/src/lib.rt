// Table id 4: a satellite's ephemeris data and covariance.
#![tactic(auto)]

ghost use Rattle.std.specs.Prelude.{◌≡◌};
ghost use Rattle.std.specs.Int.{from_bool};
ghost use Rattle.bits.specs.Read.{Room};
ghost use Rattle.ephemeris.specs.Entry.{Ahead, accel_of, entry_of, entry_width, ephemeris_data_at};
ghost use Rattle.ephemeris.specs.Ephemeris.{ephemerides_at, covariance_of, covariance_at, words_at};

use bit_reader::enough;
use bits::{Cursor, read_u};
use clocks::stamp_at;
use format::{Fault, Found, Refusal};
use parts::Part;

#[derive(Clone, Copy)]
pub struct EphemerisAccel {
    pub ephemeris_x_ddot: u32,
    pub ephemeris_y_ddot: u32,
    pub ephemeris_z_ddot: u32,
}

#[derive(Clone, Copy)]
pub struct EphemerisData {
    pub epoch_year: u8,
    pub epoch_day: u16,
    pub epoch_day_fraction: u32,
    pub ephemeris_x: u32,
    pub ephemeris_y: u32,
    pub ephemeris_z: u32,
    pub ephemeris_x_dot: u32,
    pub ephemeris_y_dot: u32,
    pub ephemeris_z_dot: u32,
    pub acceleration: Option<EphemerisAccel>,
    pub reserved_zero_future_use: u8,
}

#[derive(Clone, Copy)]
pub struct CovarianceData {
    pub covariance_epoch_year: u8,
    pub covariance_epoch_day: u16,
    pub covariance_epoch_day_fraction: u32,
    pub covariance_elements: [u32; 21],
    pub covariance_epoch_reserved_zero_future_use: u8,
}

// How many bits an ephemeris entry has: three values more with acceleration.
fn entry_bits(accel: bool) -> usize
    ensures { result ≡ entry_width accel }
{
    if accel { 344 } else { 248 }
}

// A count, and behind it so many ephemeris entries. Each is tested by itself: the first that is cut short has what is
// left behind the whole ones.
pub fn read_ephemerides(from: Cursor<'_>, accel: bool) -> Result<Found<Part>, Refusal>
    ensures { result ≡ ephemerides_at from.entry.body.now (from_bool accel) from.entry.at }
{
    let counted = read_u(from, 16)?;
    let count = counted.value as usize;
    let size = entry_bits(accel);
    let need = count * size;
    let first = counted.next as usize;
    let have = 8 * from.body.len() - first;
    if have < need {
        return Err(Refusal {
            fault: Fault::EphemerisCut,
            need: size,
            have: have % size,
        });
    }
    let part = Part {
        start: first / 8,
        length: need / 8,
        count,
    };
    Ok(Found {
        value: part,
        next: (first + need) as u16,
    })
}

// The 21 values of 32 bits from a place at which all of them are there. By the index, which is the place too.
pub fn covariance_elements_at(from: Cursor<'_>) -> [u32; 21]
    requires { Room from.body.now from.at 672 }
    ensures { result ≡ words_at from.entry.body.now from.entry.at 21 }
{
    let mut elements = [0u32; 21];
    for i in 0..21 {
        let word = from.value(32 * i as u16, 32);
        elements[i] = word as u32;
    }
    elements
}

// The covariance at a place where it is all there.
fn covariance_at(from: Cursor<'_>) -> CovarianceData
    requires { Room from.body.now from.at 728 }
    ensures { result ≡ covariance_of from.entry.body.now from.entry.at }
{
    let stamp = stamp_at(from);
    CovarianceData {
        covariance_epoch_year: stamp.year,
        covariance_epoch_day: stamp.day,
        covariance_epoch_day_fraction: stamp.fraction,
        covariance_elements: covariance_elements_at(from.to(from.at + 56)),
        covariance_epoch_reserved_zero_future_use: stamp.reserved,
    }
}

// The covariance, there only if its flag is set.
pub fn read_covariance(
    from: Cursor<'_>,
    flag: bool,
) -> Result<Found<Option<CovarianceData>>, Refusal>
    ensures { result ≡ covariance_at from.entry.body.now (from_bool flag) from.entry.at }
{
    if !flag {
        return Ok(Found {
            value: None,
            next: from.at,
        });
    }
    enough(from, Fault::CovarianceCut, 728)?;
    Ok(Found {
        value: Some(covariance_at(from)),
        next: from.at + 728,
    })
}

// An entry's acceleration, if it has one; from: the entry's own place.
fn acceleration_at(from: Cursor<'_>, accel: bool) -> Option<EphemerisAccel>
    requires { Ahead from.body.now accel from.at }
    ensures { result ≡ accel_of from.entry.body.now from.entry.at accel }
{
    if !accel {
        return None;
    }
    Some(EphemerisAccel {
        ephemeris_x_ddot: from.value(248, 32) as u32,
        ephemeris_y_ddot: from.value(280, 32) as u32,
        ephemeris_z_ddot: from.value(312, 32) as u32,
    })
}

// The ephemeris entry at a place where all of it is there.
fn entry_at(from: Cursor<'_>, accel: bool) -> EphemerisData
    requires { Room from.body.now from.at (entry_width accel) }
    ensures { result ≡ entry_of from.entry.body.now from.entry.at accel }
{
    let stamp = stamp_at(from);
    let acceleration = acceleration_at(from, accel);
    EphemerisData {
        epoch_year: stamp.year,
        epoch_day: stamp.day,
        epoch_day_fraction: stamp.fraction,
        ephemeris_x: from.value(56, 32) as u32,
        ephemeris_y: from.value(88, 32) as u32,
        ephemeris_z: from.value(120, 32) as u32,
        ephemeris_x_dot: from.value(152, 32) as u32,
        ephemeris_y_dot: from.value(184, 32) as u32,
        ephemeris_z_dot: from.value(216, 32) as u32,
        acceleration,
        reserved_zero_future_use: stamp.reserved,
    }
}

// The entry of an index within a part, read with acceleration or without; none past the part's count or past the body.
pub fn ephemeris_data_at(
    body: &[u8],
    part: Part,
    accel: bool,
    index: usize,
) -> Option<EphemerisData>
    ensures { result ≡ ephemeris_data_at body.now part accel index }
{
    let length = body.len();
    let start = part.start;
    if part.count <= index || 4096 < length {
        return None;
    }
    // before the sum, so that it cannot wrap: an entry has bytes
    if length < start || length < index {
        return None;
    }
    let size = entry_bits(accel) / 8;
    let first = start + size * index;
    if length < first + size {
        return None;
    }
    let from = Cursor {
        body,
        at: (8 * first) as u16,
    };
    Some(entry_at(from, accel))
}
