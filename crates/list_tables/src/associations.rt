// Table id 2: a time association.
use association::{LeapInfo, TimeAssociationBody};
use clocks::Clock;
use list_text::{Listing, PathText};
use std::io;
use std::io::Write;

pub fn show<W: Write>(
    out: &mut Listing<'_, W, impl PathText>,
    a: TimeAssociationBody,
) -> io::Result<()> {
    let ncr = Clock {
        base: a.ncr_base,
        reserved: a.ncr_reserved_zero_future_use,
        ext: a.ncr_ext,
    };
    out.field("association_type", a.association_type.to_u8())?;
    match a.leap_info {
        Some(leap) => show_leap(&mut out.part("leap_info")?, leap)?,
        None => {
            out.absent("leap_info")?;
            out.field("reserved_zero_future_use_4", a.reserved_zero_future_use_4)?;
        }
    }
    out.clock("ncr_", "ncr_", ncr)?;
    let seconds = a.association_timestamp_seconds;
    out.field("association_timestamp_seconds", seconds)?;
    let nanoseconds = a.association_timestamp_nanoseconds;
    out.field("association_timestamp_nanoseconds", nanoseconds)
}

fn show_leap<W: Write>(out: &mut Listing<'_, W, impl PathText>, leap: LeapInfo) -> io::Result<()> {
    out.flag("leap59", leap.leap59)?;
    out.flag("leap61", leap.leap61)?;
    out.flag("pastleap59", leap.pastleap59)?;
    out.flag("pastleap61", leap.pastleap61)
}
