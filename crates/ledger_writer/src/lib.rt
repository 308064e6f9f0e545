// The ledger of a body under its table id, in either edition. The content is gone through twice: first with no buffer,
// for its size or the refusal, and then with the buffer that is lent; a raw body's size is known without.
#![tactic(auto)]

ghost use Rattle.std.specs.Prelude.{◌≡◌, ◌+◌, ◌%◌, ◌≤◌, length};
ghost use Rattle.format.specs.Syntax.{end};
ghost use Rattle.format.specs.Lists.{list_id, entry_syntax};
ghost use Rattle.format.specs.Calls.{write_answer, write_left};
ghost use Rattle.write_runs.specs.Went.{outside, RanFrom};
ghost use Rattle.ledger_writer.specs.Listed.{Listed};
ghost use Rattle.ledger_writer.specs.Written.{Content, size_answer};

use bits::put_be;
use format::{Edition, Fault, ListTable, Output, Refusal, fitted};
use runs::copy_bytes;
use write_ephemeris::{write_header, write_position3};
use write_plans::write_plan;
use write_runs::{Step, put};
use write_tables::{write_association, write_fragment, write_position};

// An entry of a list, from a byte on (`at_value`; see `Step`).
fn write_entry<'a>(
    edition: Edition,
    table: ListTable,
    from: Step<'a>,
    out: &mut [u8],
) -> Result<Step<'a>, Refusal>
    requires at_value { from.at % 8 ≡ 0 }
    ensures { RanFrom from.entry (outside edition) (entry_syntax (list_id table)) out.old (λ _. end) out.new result }
{
    match table {
        ListTable::PositionV2 => write_position(from, out),
        ListTable::CellFragment => write_fragment(from, out),
        ListTable::BeamhoppingTimePlan => write_plan(from, edition, out),
        ListTable::PositionV3 => write_position3(from, out),
    }
}

// The entries from a place on, behind their 2-byte count, for which `spare` has room. A `while`, since how many there
// are shows only as they are gone through.
fn write_entries<'a>(
    edition: Edition,
    table: ListTable,
    from: Step<'a>,
    out: &mut [u8],
) -> Result<Step<'a>, Refusal>
    requires at_value { from.at % 8 ≡ 0 }
    requires spare { from.place ≤ from.at + 6 }
    ensures { Listed edition from.entry.body.now (list_id table) from.entry.at from.entry.place out.old out.new result }
{
    let body = from.body;
    let bits = 8 * body.len();
    let least = table.least_bits();
    let mut at = from.at;
    let mut there = from.place + 2;
    let mut count: u64 = 0;
    while least <= bits - at as usize {
        let start = there.min(out.len());
        let part = Step {
            body,
            place: 0,
            at,
            last: 0,
        };
        let entry = write_entry(edition, table, part, &mut out[start..])?;
        at = entry.at;
        there += entry.place;
        count += 1;
    }
    put(out, from.place, 2, count);
    Ok(Step {
        body,
        place: there,
        at,
        last: count,
    })
}

// What stands behind a ledger's table id, where there is room for it; the place that it comes to is its size. Of the
// tables that are no list, id 2 alone has fields.
fn write_content<'a>(
    edition: Edition,
    table_id: u8,
    body: &'a [u8],
    out: &mut [u8],
) -> Result<Step<'a>, Refusal>
    requires { length body.now ≤ 4096 }
    ensures { Content edition body.now table_id out.old out.new result }
{
    let start = Step {
        body,
        place: 0,
        at: 0,
        last: 0,
    };
    match ListTable::of(table_id) {
        Some(table) => match table {
            ListTable::PositionV2 | ListTable::CellFragment | ListTable::BeamhoppingTimePlan => {
                write_entries(edition, table, start, out)
            }
            ListTable::PositionV3 => {
                let head = write_header(start, out)?;
                write_entries(edition, table, head, out)
            }
        },
        None if table_id == 2 => write_association(start, out),
        None => {
            copy_bytes(body, out);
            Ok(Step {
                body,
                place: body.len(),
                at: (8 * body.len()) as u16,
                last: 0,
            })
        }
    }
}

// How long the ledger of a body is in an edition: the content is gone through with no room, so that nothing is stored;
// a raw body is its own content. The body's length is tested where each call begins, as its definition has it.
pub fn ledger_size(edition: Edition, table_id: u8, body: &[u8]) -> Result<usize, Refusal>
    ensures { result ≡ size_answer edition table_id body.now }
{
    let long = 4096 < body.len();
    if long {
        return Err(Refusal {
            fault: Fault::BodyTooLong,
            need: body.len(),
            have: 4096,
        });
    }
    if 4 < table_id {
        return Ok(body.len() + 4);
    }
    let content = write_content(edition, table_id, body, &mut [])?;
    Ok(content.place + 4)
}

// The ledger of a body in an edition, at the start of the buffer, and its length; after a refusal the buffer is as it
// was. The second going through the content is not refused, since the first was not.
pub fn ledger_write(
    edition: Edition,
    table_id: u8,
    body: &[u8],
    out: &mut [u8],
) -> Result<Output, Refusal>
    ensures { (result ≡ write_answer edition table_id body.now (length out.old))
        × (out.new ≡ write_left edition table_id body.now out.old) }
{
    let need = ledger_size(edition, table_id, body)?;
    let have = out.len();
    let output = fitted(table_id, need, have)?;
    put_be(out, 0, 2, (need - 2) as u64);
    put_be(out, 2, 1, edition.version() as u64);
    put_be(out, 3, 1, table_id as u64);
    let _ = write_content(edition, table_id, body, &mut out[4..]);
    Ok(output)
}
