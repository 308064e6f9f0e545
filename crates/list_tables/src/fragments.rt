// Table id 1: a cell fragment.
use clocks::Clock;
use fragment::{CellCentre, CellFragment};
use list_text::{Listing, PathText};
use parts::Part;
use std::io;
use std::io::Write;
use systems::{delivery_system_id_at, new_delivery_system_at, obsolescent_delivery_system_at};

pub fn show<W: Write>(
    out: &mut Listing<'_, W, impl PathText>,
    body: &[u8],
    f: CellFragment,
) -> io::Result<()> {
    out.field("cell_fragment_id", f.cell_fragment_id)?;
    out.flag("first_occurrence", f.first_occurrence)?;
    out.flag("last_occurrence", f.last_occurrence)?;
    match f.centre {
        Some(centre) => show_centre(&mut out.part("centre")?, centre)?,
        None => {
            out.absent("centre")?;
            out.field("reserved_zero_future_use_4", f.reserved_zero_future_use_4)?;
        }
    }
    let ids = f.delivery_system_ids;
    show_ids(&mut out.part("delivery_system_ids")?, body, ids)?;
    let kept = f.reserved_zero_future_use_new;
    out.field("reserved_zero_future_use_new", kept)?;
    let new = f.new_delivery_systems;
    show_new(&mut out.part("new_delivery_systems")?, body, new)?;
    let kept = f.reserved_zero_future_use_obsolescent;
    out.field("reserved_zero_future_use_obsolescent", kept)?;
    let old = f.obsolescent_delivery_systems;
    show_obsolescent(&mut out.part("obsolescent_delivery_systems")?, body, old)
}

fn show_centre<W: Write>(out: &mut Listing<'_, W, impl PathText>, c: CellCentre) -> io::Result<()> {
    out.field("reserved_zero_future_use_4", c.reserved_zero_future_use_4)?;
    out.field("centre_latitude", c.centre_latitude)?;
    out.field("reserved_zero_future_use_5", c.reserved_zero_future_use_5)?;
    out.field("centre_longitude", c.centre_longitude)?;
    out.field("max_distance", c.max_distance)?;
    out.field("reserved_zero_future_use_6", c.reserved_zero_future_use_6)
}

// The delivery systems' ids. An id is a value by itself, with no name behind its place in the list. By the index, which
// is what the call takes; so are the other lists.
fn show_ids<W: Write>(
    out: &mut Listing<'_, W, impl PathText>,
    body: &[u8],
    part: Part,
) -> io::Result<()> {
    out.list(part)?;
    for i in 0..part.count {
        if let Some(id) = delivery_system_id_at(body, part, i) {
            out.element(i)?.value(id)?;
        }
    }
    Ok(())
}

fn show_new<W: Write>(
    out: &mut Listing<'_, W, impl PathText>,
    body: &[u8],
    part: Part,
) -> io::Result<()> {
    out.list(part)?;
    for i in 0..part.count {
        if let Some(s) = new_delivery_system_at(body, part, i) {
            let time = Clock {
                base: s.time_of_application_base,
                reserved: s.reserved_zero_future_use,
                ext: s.time_of_application_ext,
            };
            let mut at = out.element(i)?;
            at.field("new_delivery_system_id", s.new_delivery_system_id)?;
            at.clock("time_of_application_", "", time)?;
        }
    }
    Ok(())
}

fn show_obsolescent<W: Write>(
    out: &mut Listing<'_, W, impl PathText>,
    body: &[u8],
    part: Part,
) -> io::Result<()> {
    out.list(part)?;
    for i in 0..part.count {
        if let Some(s) = obsolescent_delivery_system_at(body, part, i) {
            let time = Clock {
                base: s.time_of_obsolescence_base,
                reserved: s.reserved_zero_future_use,
                ext: s.time_of_obsolescence_ext,
            };
            let id = s.obsolescent_delivery_system_id;
            let mut at = out.element(i)?;
            at.field("obsolescent_delivery_system_id", id)?;
            at.clock("time_of_obsolescence_", "", time)?;
        }
    }
    Ok(())
}
