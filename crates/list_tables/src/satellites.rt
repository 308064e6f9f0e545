// Table id 0: a satellite and its position.
use list_text::{Listing, PathText};
use position::{PositionSystem, PositionV2Satellite};
use std::io;
use std::io::Write;

pub fn show<W: Write>(
    out: &mut Listing<'_, W, impl PathText>,
    s: PositionV2Satellite,
) -> io::Result<()> {
    let kept = s.reserved_zero_future_use;
    let system = s.position;
    let is_elements = matches!(system, PositionSystem::Sgp4 { .. });
    out.field("satellite_id", s.satellite_id)?;
    out.field("reserved_zero_future_use", kept)?;
    out.flag("position_system", is_elements)?;
    show_position(&mut out.part("position")?, system)
}

fn show_position<W: Write>(
    out: &mut Listing<'_, W, impl PathText>,
    system: PositionSystem,
) -> io::Result<()> {
    match system {
        PositionSystem::Orbital {
            orbital_position,
            west_east_flag,
            reserved_zero_future_use,
        } => {
            out.field("orbital_position", orbital_position)?;
            out.flag("west_east_flag", west_east_flag)?;
            out.field("reserved_zero_future_use", reserved_zero_future_use)
        }
        PositionSystem::Sgp4 {
            epoch_year,
            day_of_the_year,
            day_fraction,
            mean_motion_first_derivative: first,
            mean_motion_second_derivative: second,
            drag_term,
            inclination,
            right_ascension,
            eccentricity,
            argument_of_perigree,
            mean_anomaly,
            mean_motion,
        } => {
            out.field("epoch_year", epoch_year)?;
            out.field("day_of_the_year", day_of_the_year)?;
            out.field("day_fraction", day_fraction)?;
            out.field("mean_motion_first_derivative", first)?;
            out.field("mean_motion_second_derivative", second)?;
            out.field("drag_term", drag_term)?;
            out.field("inclination", inclination)?;
            out.field("right_ascension", right_ascension)?;
            out.field("eccentricity", eccentricity)?;
            out.field("argument_of_perigree", argument_of_perigree)?;
            out.field("mean_anomaly", mean_anomaly)?;
            out.field("mean_motion", mean_motion)
        }
    }
}
