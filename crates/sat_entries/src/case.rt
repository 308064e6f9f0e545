// A case: a table id and a body, listed with all that the library reads of it.
use entry_ids::entry_ids;
use format::Refusal;
use list_tables::{associations, fragments, satellites};
use list_text::{Hexadecimal, Listing, bytes_of};
use parts::Part;
use sat::{SatBody, SatEntry, entry_at, entry_count, header, sat_body_parse_entries};
use std::io::Write;
use std::{fmt, io};

// The heading, the fields or the refusal, and an empty line.
pub fn show_case<W: Write>(out: &mut Listing<'_, W>, id: u8, body: &[u8]) -> io::Result<()> {
    let size = body.len();
    out.line(format_args!("case id {id} bytes {size}"))?;
    match sat_body_parse_entries(id, body) {
        Ok(whole) => show_body(out, id, body, whole)?,
        Err(refusal) => show_refusal(out, refusal)?,
    }
    out.text("\n")
}

fn show_refusal<W: Write>(out: &mut Listing<'_, W>, f: Refusal) -> io::Result<()> {
    let number = f.fault.number();
    let need = f.need;
    let have = f.have;
    out.line(format_args!("R {number} {need} {have}"))
}

// The header, which a body has under id 4 alone, the entries, and their ids.
fn show_body<W: Write>(
    out: &mut Listing<'_, W>,
    id: u8,
    body: &[u8],
    whole: SatBody,
) -> io::Result<()> {
    match header(id, body) {
        Ok(Some(h)) => list_ephemeris::show_header(out, h)?,
        Ok(None) => {}
        Err(refusal) => show_refusal(out, refusal)?,
    }
    let count = entry_count(id, body).unwrap_or(0);
    match list_of(whole) {
        Some(list) => show_list(&mut out.part(list.name)?, id, body, list.part, count)?,
        None => {
            for i in 0..count {
                show_entry(out, id, body, i)?;
            }
        }
    }
    show_ids(out, id, body)
}

// A body's list of entries.
#[derive(Clone, Copy)]
struct List {
    name: &'static str,
    part: Part,
}

// The list of a body; none for a body that is no list.
fn list_of(whole: SatBody) -> Option<List> {
    let (name, part) = match whole {
        SatBody::PositionV2(b) => ("satellites", b.satellites),
        SatBody::CellFragment(b) => ("fragments", b.fragments),
        SatBody::BeamhoppingTimePlan(b) => ("plans", b.plans),
        SatBody::PositionV3(b) => ("satellites", b.satellites),
        SatBody::TimeAssociation(_) | SatBody::Raw(_) => return None,
    };
    Some(List { name, part })
}

fn show_list<W: Write>(
    out: &mut Listing<'_, W>,
    id: u8,
    body: &[u8],
    part: Part,
    count: usize,
) -> io::Result<()> {
    out.list(part)?;
    for i in 0..count {
        show_entry(&mut out.element(i)?, id, body, i)?;
    }
    Ok(())
}

fn show_entry<W: Write>(
    out: &mut Listing<'_, W>,
    id: u8,
    body: &[u8],
    index: usize,
) -> io::Result<()> {
    match entry_at(id, body, index) {
        Ok(Some(entry)) => show_fields(out, body, entry),
        Ok(None) => Ok(()),
        Err(refusal) => show_refusal(out, refusal),
    }
}

fn show_fields<W: Write>(out: &mut Listing<'_, W>, body: &[u8], entry: SatEntry) -> io::Result<()> {
    match entry {
        SatEntry::PositionV2(s) => satellites::show(out, s),
        SatEntry::CellFragment(f) => fragments::show(out, body, f),
        SatEntry::TimeAssociation(a) => associations::show(out, a),
        SatEntry::BeamhoppingTimePlan(p) => list_plans::show(out, body, p),
        SatEntry::PositionV3(s) => list_ephemeris::show(out, body, s),
        SatEntry::Raw(part) => out.field("Raw", Hexadecimal(bytes_of(body, part))),
    }
}

// Ids as a line.
#[derive(Clone, Copy)]
struct Ids<'a>(&'a [u32]);

impl fmt::Display for Ids<'_> {
    fn fmt<W: fmt::Write>(&self, f: &mut fmt::Formatter<W>) -> fmt::Result {
        write!(f, "ids")?;
        for id in self.0 {
            write!(f, " {id}")?;
        }
        Ok(())
    }
}

// The different ids of the entries on one line, in the order of first entries. A body has at most 1,024 entries. By
// itself, so that the stack has these ids only while they are listed.
#[inline(never)]
fn show_ids<W: Write>(out: &mut Listing<'_, W>, id: u8, body: &[u8]) -> io::Result<()> {
    let mut ids = [0u32; 1024];
    let Ok(found) = entry_ids(id, body, &mut ids) else {
        return Ok(());
    };
    out.line(Ids(ids.get(..found.length).unwrap_or(&[])))
}
