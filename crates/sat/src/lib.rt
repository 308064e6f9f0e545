// What a caller gets of a body under its table id: the whole body by the Rust's call, its lists as parts of the bytes;
// and one by one the number of entries, the header under id 4, and the entry at an index.
#![tactic(auto)]

ghost use Rattle.std.specs.Prelude.{◌≡◌, ◌%◌, ◌≤◌, length};
ghost use Rattle.entries.specs.Entries.{head_end};
ghost use Rattle.sat.specs.Sat.{count_of, header_of_body, raw_part, typed_at, entry_of};
ghost use Rattle.sat.specs.SatBody.{list_part, position3_body, typed_body, sat_body_of};

use association::{TimeAssociationBody, read_association};
use bits::Cursor;
use entries::walk_body;
use format::Refusal;
use fragment::{CellFragment, read_fragment};
use parts::Part;
use plan::{BeamhoppingPlan, read_plan};
use position::{PositionV2Satellite, read_satellite};
use position_v3::{PositionV3Header, PositionV3Satellite, read_header, read_satellite_v3};

// A body by its table. A list of entries is the part of the body that they lie in, leftovers not among them.
#[derive(Clone, Copy)]
pub struct PositionV2Body {
    pub satellites: Part,
}

#[derive(Clone, Copy)]
pub struct CellFragmentBody {
    pub fragments: Part,
}

#[derive(Clone, Copy)]
pub struct BeamhoppingTimePlanBody {
    pub plans: Part,
}

#[derive(Clone, Copy)]
pub struct PositionV3Body {
    pub oem_version_major: u8,
    pub oem_version_minor: u8,
    pub creation_date_year: u8,
    pub creation_date_day: u16,
    pub creation_date_day_fraction: u32,
    pub satellites: Part,
    pub creation_date_reserved_zero_future_use: u8,
}

// A body of any table. A raw body is all of its bytes.
#[derive(Clone, Copy)]
pub enum SatBody {
    PositionV2(PositionV2Body),
    CellFragment(CellFragmentBody),
    TimeAssociation(TimeAssociationBody),
    BeamhoppingTimePlan(BeamhoppingTimePlanBody),
    PositionV3(PositionV3Body),
    Raw(Part),
}

// An entry of any table. A raw body is one entry: its part is the body itself.
#[derive(Clone, Copy)]
pub enum SatEntry {
    PositionV2(PositionV2Satellite),
    CellFragment(CellFragment),
    TimeAssociation(TimeAssociationBody),
    BeamhoppingTimePlan(BeamhoppingPlan),
    PositionV3(PositionV3Satellite),
    Raw(Part),
}

// How many entries a body has.
pub fn entry_count(table_id: u8, body: &[u8]) -> Result<usize, Refusal>
    ensures { result ≡ count_of table_id body.now }
{
    let walk = walk_body(table_id, body, 0)?;
    Ok(walk.count)
}

// A body's header, which it has under id 4 alone; after the body's own faults.
pub fn header(table_id: u8, body: &[u8]) -> Result<Option<PositionV3Header>, Refusal>
    ensures { result ≡ header_of_body table_id body.now }
{
    walk_body(table_id, body, 0)?;
    if table_id != 4 {
        return Ok(None);
    }
    let header = read_header(body)?;
    Ok(Some(header.value))
}

// The whole of a raw body.
fn raw_part(s: &[u8]) -> Part
    ensures { result ≡ raw_part s.now }
{
    Part {
        start: 0,
        length: s.len(),
        count: s.len(),
    }
}

// The entry of a table at a place, which starts a byte (see `Cursor`).
fn typed_entry(table_id: u8, from: Cursor<'_>) -> Result<SatEntry, Refusal>
    requires { (from.at % 8 ≡ 0) × (table_id ≡ 2 → from.at ≡ 0) }
    ensures { result ≡ typed_at table_id from.entry.body.now from.entry.at }
{
    match table_id {
        0 => Ok(SatEntry::PositionV2(read_satellite(from)?.value)),
        1 => Ok(SatEntry::CellFragment(read_fragment(from)?.value)),
        2 => Ok(SatEntry::TimeAssociation(read_association(from.body)?.value)),
        3 => Ok(SatEntry::BeamhoppingTimePlan(read_plan(from)?.value)),
        4 => Ok(SatEntry::PositionV3(read_satellite_v3(from)?.value)),
        _ => Ok(SatEntry::Raw(raw_part(from.body))),
    }
}

// The entry at an index from 0; none where there is no such entry, after the body's own faults.
pub fn entry_at(table_id: u8, body: &[u8], index: usize) -> Result<Option<SatEntry>, Refusal>
    ensures { result ≡ entry_of table_id body.now index }
{
    let walk = walk_body(table_id, body, index)?;
    match walk.place {
        Some(at) => Ok(Some(typed_entry(table_id, Cursor { body, at })?)),
        None => Ok(None),
    }
}

// The part that a list's entries lie in: from the bit place of the first to the one where the reading ended.
fn list_part(start: u16, end: u16, count: usize) -> Part
    requires { start ≤ end }
    ensures { result ≡ list_part start end count }
{
    let bits = (end - start) as usize;
    Part {
        start: start as usize / 8,
        length: bits / 8,
        count,
    }
}

// A body under id 4 that reads, with its number of entries and the place where the reading ended.
fn position_v3_body(s: &[u8], count: usize, end: u16) -> Result<SatBody, Refusal>
    requires { (length s.now ≤ 4096) × (head_end 4 s.now ≤ end) }
    ensures { result ≡ position3_body s.now count end }
{
    let found = read_header(s)?;
    let header = found.value;
    Ok(SatBody::PositionV3(PositionV3Body {
        oem_version_major: header.oem_version_major,
        oem_version_minor: header.oem_version_minor,
        creation_date_year: header.creation_date_year,
        creation_date_day: header.creation_date_day,
        creation_date_day_fraction: header.creation_date_day_fraction,
        satellites: list_part(found.next, end, count),
        creation_date_reserved_zero_future_use: header.creation_date_reserved_zero_future_use,
    }))
}

// The same under any id.
#[tactic(auto, unfolding(crate::specs::SatBody::typed_body))]
fn typed_body(table_id: u8, s: &[u8], count: usize, end: u16) -> Result<SatBody, Refusal>
    requires { (length s.now ≤ 4096) × (head_end table_id s.now ≤ end) }
    ensures { result ≡ typed_body table_id s.now count end }
{
    match table_id {
        0 => {
            let satellites = list_part(0, end, count);
            Ok(SatBody::PositionV2(PositionV2Body { satellites }))
        }
        1 => {
            let fragments = list_part(0, end, count);
            Ok(SatBody::CellFragment(CellFragmentBody { fragments }))
        }
        2 => Ok(SatBody::TimeAssociation(read_association(s)?.value)),
        3 => {
            let plans = list_part(0, end, count);
            Ok(SatBody::BeamhoppingTimePlan(BeamhoppingTimePlanBody { plans }))
        }
        4 => position_v3_body(s, count, end),
        _ => Ok(SatBody::Raw(raw_part(s))),
    }
}

// The whole body, after its own faults.
pub fn sat_body_parse_entries(sat_table_id: u8, data: &[u8]) -> Result<SatBody, Refusal>
    ensures { result ≡ sat_body_of sat_table_id «data».now }
{
    let walk = walk_body(sat_table_id, data, 0)?;
    typed_body(sat_table_id, data, walk.count, walk.end)
}
