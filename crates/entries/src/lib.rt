// Going through the entries of a body, whatever its table: how many there are, where one of them starts, and where the
// last one ends.
#![tactic(auto)]

ghost use Rattle.std.specs.Prelude.{◌≡◌, ◌%◌, ◌≤◌, length};
ghost use Rattle.format.specs.Whole.{layout, body_starts};
ghost use Rattle.format.specs.At.{end_of, seek};
ghost use Rattle.format.specs.Tables.{position, fragment, beamhopping, position3};
ghost use Rattle.format.specs.Lists.{IsList, list_id, entry_syntax, head_syntax};
ghost use Rattle.entries.specs.Entries.{head_end, list_starts, next_of, walked, Sure};

use association::read_association;
use bits::Cursor;
use format::{Fault, Found, ListTable, Refusal};
use fragment::read_fragment;
use plan::read_plan;
use position::read_satellite;
use position_v3::{read_header, read_satellite_v3};

// How many entries there are, the bit place at which the one at an index starts, if there is one, and the place where
// the reading ended: behind the last entry of a list, and else at the body's end.
#[derive(Clone, Copy)]
pub struct Walk {
    pub count: usize,
    pub place: Option<u16>,
    pub end: u16,
}

// Of what was read, the place behind it. Inlined for speed, so that what nobody asks for is not made.
#[inline(always)]
#[tactic(auto, unfolding(crate::specs::Entries::next_of))]
fn next_of<T: Copy>(found: Result<Found<T>, Refusal>) -> Result<u16, Refusal>
    ensures { result ≡ next_of found }
{
    Ok(found?.next)
}

// Where the entry of a table ends. Each by itself, and not inlined, for speed: what is read has a place of its own in
// memory, which is cleared where a function begins, and with all four in one function an entry took twice as long.
#[inline(never)]
fn satellite_end(from: Cursor<'_>) -> Result<u16, Refusal>
    ensures { result ≡ end_of from.entry.body.now position from.entry.at }
{
    next_of(read_satellite(from))
}

#[inline(never)]
fn fragment_end(from: Cursor<'_>) -> Result<u16, Refusal>
    ensures { result ≡ end_of from.entry.body.now fragment from.entry.at }
{
    next_of(read_fragment(from))
}

#[inline(never)]
fn plan_end(from: Cursor<'_>) -> Result<u16, Refusal>
    requires at_value { from.at % 8 ≡ 0 }
    ensures { result ≡ end_of from.entry.body.now beamhopping from.entry.at }
{
    next_of(read_plan(from))
}

#[inline(never)]
fn satellite_v3_end(from: Cursor<'_>) -> Result<u16, Refusal>
    requires at_value { from.at % 8 ≡ 0 }
    ensures { result ≡ end_of from.entry.body.now position3 from.entry.at }
{
    next_of(read_satellite_v3(from))
}

// Where the entry of a list at a place ends, which starts a byte (`at_value`; see `Cursor`).
pub fn entry_end(table: ListTable, from: Cursor<'_>) -> Result<u16, Refusal>
    requires at_value { from.at % 8 ≡ 0 }
    ensures { result ≡ end_of from.entry.body.now (entry_syntax (list_id table)) from.entry.at }
{
    match table {
        ListTable::PositionV2 => satellite_end(from),
        ListTable::CellFragment => fragment_end(from),
        ListTable::BeamhoppingTimePlan => plan_end(from),
        ListTable::PositionV3 => satellite_v3_end(from),
    }
}

// Where the entries of a list start: behind the header under id 4.
pub fn head_end(table: ListTable, s: &[u8]) -> Result<u16, Refusal>
    requires s_len_bound { length s.now ≤ 4096 }
    ensures { result ≡ end_of s.now (head_syntax (list_id table)) 0 }
{
    match table {
        ListTable::PositionV2 | ListTable::CellFragment | ListTable::BeamhoppingTimePlan => Ok(0),
        ListTable::PositionV3 => next_of(read_header(s)),
    }
}

// The entries of a list from a place on. A `while`, since where an entry ends shows only once it is read; an iterator
// would keep the same place.
fn seek_entries(table: ListTable, from: Cursor<'_>, index: usize) -> Result<Walk, Refusal>
    requires at_value { from.at % 8 ≡ 0 }
    ensures value { result ≡ seek from.entry.body.now index walked Err (list_starts table from.entry.body.now from.entry.at) }
    ensures sure { Sure from.entry.body.now from.entry.at result }
{
    let all = 8 * from.body.len();
    let least = table.least_bits();
    let mut at = from.at;
    let mut count: usize = 0;
    let mut place = None;
    while least <= all - at as usize {
        let next = entry_end(table, from.to(at))?;
        if count == index {
            place = Some(at);
        }
        at = next;
        count += 1;
    }
    Ok(Walk {
        count,
        place,
        end: at,
    })
}

// The one entry of a body that is no list: of the time association, under id 2, or of a raw body, under any other.
fn sole_entry(table_id: u8, s: &[u8], index: usize) -> Result<Walk, Refusal>
    requires s_len_bound { length s.now ≤ 4096 }
    requires no_list { IsList (layout table_id) → ⊥ }
    ensures value { result ≡ seek s.now index walked Err (body_starts table_id s.now) }
    ensures sure { Sure s.now 0 result }
{
    if table_id == 2 {
        read_association(s)?;
    }
    Ok(Walk {
        count: 1,
        place: if index == 0 { Some(0) } else { None },
        end: (8 * s.len()) as u16,
    })
}

// The entries of a body: their number, the place of the one at an index, and the place where the reading ended; or the
// body's refusal. Its length is tested where each call begins, as each call's definition has it.
pub fn walk_body(table_id: u8, s: &[u8], index: usize) -> Result<Walk, Refusal>
    ensures value { result ≡ seek s.now index walked Err (body_starts table_id s.now) }
    ensures sure { Sure s.now (head_end table_id s.now) result }
{
    if 4096 < s.len() {
        return Err(Refusal {
            fault: Fault::BodyTooLong,
            need: s.len(),
            have: 4096,
        });
    }
    match ListTable::of(table_id) {
        Some(table) => {
            let at = head_end(table, s)?;
            seek_entries(table, Cursor { body: s, at }, index)
        }
        None => sole_entry(table_id, s, index),
    }
}
