// Table id 4: the header, and a satellite with its metadata, its ephemerides and its covariance.
#![tactic(auto)]

use clocks::Stamp;
use ephemeris::{CovarianceData, EphemerisAccel, EphemerisData, ephemeris_data_at};
use list_text::{Listing, PathText};
use metadata::{PositionV3Metadata, UsableTime};
use parts::Part;
use position_v3::{PositionV3Header, PositionV3Satellite};
use std::io;
use std::io::Write;

pub fn show_header<W: Write>(
    out: &mut Listing<'_, W, impl PathText>,
    h: PositionV3Header,
) -> io::Result<()> {
    let date = Stamp {
        year: h.creation_date_year,
        reserved: h.creation_date_reserved_zero_future_use,
        day: h.creation_date_day,
        fraction: h.creation_date_day_fraction,
    };
    out.field("oem_version_major", h.oem_version_major)?;
    out.field("oem_version_minor", h.oem_version_minor)?;
    show_date(out, "creation_date_", date)
}

// A stamp whose reserved bits have its stem too.
fn show_date<W: Write>(
    out: &mut Listing<'_, W, impl PathText>,
    stem: &str,
    date: Stamp,
) -> io::Result<()> {
    out.stamp(stem, stem, date)
}

pub fn show<W: Write>(
    out: &mut Listing<'_, W, impl PathText>,
    body: &[u8],
    s: PositionV3Satellite,
) -> io::Result<()> {
    show_front(out, s)?;
    match s.metadata {
        Some(metadata) => show_metadata(&mut out.part("metadata")?, metadata)?,
        None => out.absent("metadata")?,
    }
    let accel = s.ephemeris_accel_flag;
    let part = s.ephemeris_data;
    show_ephemerides(&mut out.part("ephemeris_data")?, body, part, accel)?;
    match s.covariance {
        Some(covariance) => show_covariance(&mut out.part("covariance")?, covariance),
        None => out.absent("covariance"),
    }
}

// The id and the flags.
fn show_front<W: Write>(
    out: &mut Listing<'_, W, impl PathText>,
    s: PositionV3Satellite,
) -> io::Result<()> {
    out.field("satellite_id", s.satellite_id)?;
    out.field("reserved_zero_future_use", s.reserved_zero_future_use)?;
    out.flag("metadata_flag", s.metadata.is_some())?;
    out.flag("usable_start_time_flag", s.usable_start_time_flag)?;
    out.flag("usable_stop_time_flag", s.usable_stop_time_flag)?;
    out.flag("ephemeris_accel_flag", s.ephemeris_accel_flag)?;
    out.flag("covariance_flag", s.covariance_flag)
}

fn show_metadata<W: Write>(
    out: &mut Listing<'_, W, impl PathText>,
    m: PositionV3Metadata,
) -> io::Result<()> {
    let first = Stamp {
        year: m.total_start_time_year,
        reserved: m.total_start_time_reserved_zero_future_use,
        day: m.total_start_time_day,
        fraction: m.total_start_time_day_fraction,
    };
    let last = Stamp {
        year: m.total_stop_time_year,
        reserved: m.total_stop_time_reserved_zero_future_use,
        day: m.total_stop_time_day,
        fraction: m.total_stop_time_day_fraction,
    };
    show_date(out, "total_start_time_", first)?;
    show_date(out, "total_stop_time_", last)?;
    out.field("reserved_zero_future_use", m.reserved_zero_future_use)?;
    out.flag("interpolation_flag", m.interpolation_flag)?;
    out.field("interpolation_type", m.interpolation_type.to_u8())?;
    out.field("interpolation_degree", m.interpolation_degree)?;
    show_usable(out, "usable_start_time", m.usable_start_time)?;
    show_usable(out, "usable_stop_time", m.usable_stop_time)
}

fn show_usable<W: Write>(
    out: &mut Listing<'_, W, impl PathText>,
    name: &str,
    time: Option<UsableTime>,
) -> io::Result<()> {
    match time {
        Some(time) => {
            let stamp = Stamp {
                year: time.year,
                reserved: time.reserved_zero_future_use,
                day: time.day,
                fraction: time.day_fraction,
            };
            out.part(name)?.stamp("", "", stamp)
        }
        None => out.absent(name),
    }
}

// The entries, by the index, which is what the call takes.
fn show_ephemerides<W: Write>(
    out: &mut Listing<'_, W, impl PathText>,
    body: &[u8],
    part: Part,
    accel: bool,
) -> io::Result<()> {
    out.list(part)?;
    for i in 0..part.count {
        if let Some(e) = ephemeris_data_at(body, part, accel, i) {
            show_ephemeris(&mut out.element(i)?, e)?;
        }
    }
    Ok(())
}

fn show_ephemeris<W: Write>(
    out: &mut Listing<'_, W, impl PathText>,
    e: EphemerisData,
) -> io::Result<()> {
    let epoch = Stamp {
        year: e.epoch_year,
        reserved: e.reserved_zero_future_use,
        day: e.epoch_day,
        fraction: e.epoch_day_fraction,
    };
    out.stamp("epoch_", "", epoch)?;
    out.field("ephemeris_x", e.ephemeris_x)?;
    out.field("ephemeris_y", e.ephemeris_y)?;
    out.field("ephemeris_z", e.ephemeris_z)?;
    out.field("ephemeris_x_dot", e.ephemeris_x_dot)?;
    out.field("ephemeris_y_dot", e.ephemeris_y_dot)?;
    out.field("ephemeris_z_dot", e.ephemeris_z_dot)?;
    match e.acceleration {
        Some(acceleration) => show_acceleration(&mut out.part("acceleration")?, acceleration),
        None => out.absent("acceleration"),
    }
}

fn show_acceleration<W: Write>(
    out: &mut Listing<'_, W, impl PathText>,
    a: EphemerisAccel,
) -> io::Result<()> {
    out.field("ephemeris_x_ddot", a.ephemeris_x_ddot)?;
    out.field("ephemeris_y_ddot", a.ephemeris_y_ddot)?;
    out.field("ephemeris_z_ddot", a.ephemeris_z_ddot)
}

fn show_covariance<W: Write>(
    out: &mut Listing<'_, W, impl PathText>,
    c: CovarianceData,
) -> io::Result<()> {
    let epoch = Stamp {
        year: c.covariance_epoch_year,
        reserved: c.covariance_epoch_reserved_zero_future_use,
        day: c.covariance_epoch_day,
        fraction: c.covariance_epoch_day_fraction,
    };
    show_date(out, "covariance_epoch_", epoch)?;
    let mut list = out.part("covariance_elements")?;
    for (i, element) in c.covariance_elements.iter().enumerate() {
        list.element(i)?.value(element)?;
    }
    Ok(())
}
