// The ids of a body's entries, each different one once, in the order of first entries.
#![tactic(auto)]

ghost use Rattle.std.specs.Prelude.{◌≡◌, [], ◌%◌, ◌<◌, length};
ghost use Rattle.arrayvec.specs.ArrayVec.{array_vec_len};
ghost use Rattle.format.specs.Digits.{value_at};
ghost use Rattle.bits.specs.Read.{Room};
ghost use Rattle.format.specs.Lists.{list_id};
ghost use Rattle.entry_ids.specs.Ids.{ids_of, ids_answer, ids_left};
ghost use Rattle.entry_ids.specs.Steps.{id_bits, join, gather, list_entries, Gathered, gathered};

use arrayvec::ArrayVec;
use bits::Cursor;
use entries::{entry_end, head_end, walk_body};
use format::{Fault, ListTable, Output, Refusal, fitted};

// The most entries that 4,096 bytes hold: an entry takes at least four.
const ENTRIES_MAX: usize = 1024;

// Puts an id behind those that are there, unless it is one of them.
fn join(ids: &mut ArrayVec<u32, ENTRIES_MAX>, id: u32)
    requires { array_vec_len ids.old < 1024 }
    ensures { ids.new.items ≡ join ids.old.items «id» }
{
    if !ids.contains(&id) {
        ids.push(id);
    }
}

// The id of the entry at a place: its first field, 24 bits for satellites and 32 for the others.
fn entry_id(table: ListTable, from: Cursor<'_>) -> u32
    requires { Room from.body.now from.at 32 }
    ensures { result ≡ value_at from.entry.body.now from.entry.at (id_bits (list_id table)) }
{
    match table {
        ListTable::PositionV2 | ListTable::PositionV3 => from.value(0, 24) as u32,
        ListTable::CellFragment | ListTable::BeamhoppingTimePlan => from.value(0, 32) as u32,
    }
}

// Gathers the different ids of a list's entries from a place on, which starts a byte (`at_value`; see `Cursor`), in the
// order in which they are met. A `while`, since where an entry ends shows only once it is read; what it keeps is
// another than in `seek_entries` of entries. The list is lent, since handing it back would copy it.
fn list_ids(
    table: ListTable,
    from: Cursor<'_>,
    ids: &mut ArrayVec<u32, ENTRIES_MAX>,
) -> Result<(), Refusal>
    requires at_value { from.at % 8 ≡ 0 }
    requires empty { ids.old.items ≡ [] }
    ensures { Gathered (gather (list_id table) [] (list_entries table from.entry.body.now from.entry.at)) (gathered ids.new result) }
{
    let all = 8 * from.body.len();
    let least = table.least_bits();
    let mut at = from.at;
    while least <= all - at as usize {
        let entry = from.to(at);
        let next = entry_end(table, entry)?;
        let id = entry_id(table, entry);
        join(ids, id);
        at = next;
    }
    Ok(())
}

// Gathers the different ids of a body's entries. A body that is no list has none, and is refused as its reading is. Its
// length is tested where each call begins, as each call's definition has it.
fn gather_ids(table_id: u8, s: &[u8], ids: &mut ArrayVec<u32, ENTRIES_MAX>) -> Result<(), Refusal>
    requires { ids.old.items ≡ [] }
    ensures { Gathered (ids_of table_id s.now) (gathered ids.new result) }
{
    if 4096 < s.len() {
        return Err(Refusal {
            fault: Fault::BodyTooLong,
            need: s.len(),
            have: 4096,
        });
    }
    match ListTable::of(table_id) {
        Some(table) => {
            let at = head_end(table, s)?;
            list_ids(table, Cursor { body: s, at }, ids)
        }
        None => {
            walk_body(table_id, s, 0)?;
            Ok(())
        }
    }
}

// What the call below answers with a buffer of so many ids.
pub fn entry_ids_answer(table_id: u8, body: &[u8], room: usize) -> Result<Output, Refusal>
    ensures { result ≡ ids_answer table_id body.now room }
{
    let mut ids = ArrayVec::new();
    gather_ids(table_id, body, &mut ids)?;
    fitted(table_id, ids.len(), room)
}

// The different ids of a body's entries, each where it first stands, from the buffer's start on where there is room for
// them; after a refusal the buffer is as it was.
pub fn entry_ids(table_id: u8, body: &[u8], out: &mut [u32]) -> Result<Output, Refusal>
    ensures { (result ≡ ids_answer table_id body.now (length out.old)) × (out.new ≡ ids_left table_id body.now out.old) }
{
    let mut ids = ArrayVec::new();
    gather_ids(table_id, body, &mut ids)?;
    let count = ids.len();
    let output = fitted(table_id, count, out.len())?;
    out[..count].copy_from_slice(&ids);
    Ok(output)
}
