// The ledger reader: a ledger gone through from its first byte to its last, and laid as the body that it stands for:
// plain in the first edition, kept in the second.
// The same steps measure: with an empty buffer nothing is stored, and the answer is the same.
#![tactic(auto)]

ghost use Rattle.std.specs.Prelude.{◌≡◌, ◌||◌, ◌+◌, ◌*◌, ◌%◌, ◌≤◌, eqb, length, drop};
ghost use Rattle.format.specs.Whole.{layout, laids, counted, content_as};
ghost use Rattle.format.specs.Lists.{list_id, entry_syntax};
ghost use Rattle.format.specs.Calls.{read_answer, read_left};
ghost use Rattle.runs.specs.Stored.{stored};
ghost use Rattle.read_runs.specs.Came.{way_of};
ghost use Rattle.read_plans.specs.Taken.{TakenFrom};
ghost use Rattle.ledger_reader.specs.Held.{listing, fields_as, bits_in, Framed, Holds, HoldsFrom};
ghost use Rattle.ledger_reader.specs.Measured.{measure_of, Measures};

use bits::get_be;
use format::{Edition, Fault, ListTable, Output, Refusal, fitted};
use read_ephemeris::{read_header, read_position3};
use read_plans::read_plan;
use read_runs::{Step, byte_of, refused_at};
use read_tables::{read_association, read_fragment, read_position};
use runs::copy_bytes;

// One entry of a list, from a byte on (`at_value`; see `Step`), in an edition; last: none follows it. A plan asks for a
// byte of the ledger to spare (`ahead`), which not every step has.
fn read_entry<'a>(
    from: Step<'a>,
    edition: Edition,
    last: bool,
    table: ListTable,
    out: &mut [u8],
) -> Result<Step<'a>, Refusal>
    requires ahead { from.at + 8 ≤ 8 * from.place }
    requires at_value { from.at % 8 ≡ 0 }
    ensures { TakenFrom (way_of edition last) from.entry (entry_syntax (list_id table)) out.old out.new result }
{
    match table {
        ListTable::PositionV2 => read_position(from, out),
        ListTable::CellFragment => read_fragment(from, out),
        ListTable::BeamhoppingTimePlan => read_plan(from, edition, last, out),
        ListTable::PositionV3 => read_position3(from, out),
    }
}

// The next entry, laid from the start on of the part of the buffer that starts where the last one ended. Around another
// call so do read_ephemeris and the writer; one function for them would need one relation in place of three.
fn read_next<'a>(
    from: Step<'a>,
    edition: Edition,
    last: bool,
    table: ListTable,
    out: &mut [u8],
) -> Result<Step<'a>, Refusal>
    requires ahead { from.at + 8 ≤ 8 * from.place }
    requires at_value { from.at % 8 ≡ 0 }
    ensures { TakenFrom (way_of edition last) from.entry (entry_syntax (list_id table)) out.old out.new result }
{
    let start = byte_of(from.at, out.len());
    let first = Step {
        ledger: from.ledger,
        place: from.place,
        at: 0,
        last: 0,
    };
    let entry = read_entry(first, edition, last, table, &mut out[start..])?;
    Ok(Step {
        ledger: entry.ledger,
        place: entry.place,
        at: from.at + entry.at,
        last: entry.last,
    })
}

// So many entries, up to the first that is refused. The index tells the last one.
fn read_entries<'a>(
    from: Step<'a>,
    edition: Edition,
    table: ListTable,
    count: u64,
    out: &mut [u8],
) -> Result<Step<'a>, Refusal>
    requires ahead { from.at + 8 ≤ 8 * from.place }
    requires at_value { from.at % 8 ≡ 0 }
    ensures { HoldsFrom edition (λ n. counted edition n (entry_syntax (list_id table)) count)
        from.entry out.old out.new result }
{
    let mut step = from;
    for i in 0..count {
        let last = i + 1 == count;
        step = read_next(step, edition, last, table, out)?;
    }
    Ok(step)
}

// The entries behind their 2-byte count.
fn read_list<'a>(
    from: Step<'a>,
    edition: Edition,
    table: ListTable,
    out: &mut [u8],
) -> Result<Step<'a>, Refusal>
    requires ahead { from.at + 8 ≤ 8 * from.place }
    requires at_value { from.at % 8 ≡ 0 }
    ensures { HoldsFrom edition (λ n. listing edition n (entry_syntax (list_id table)))
        from.entry out.old out.new result }
{
    if from.ledger.len() - from.place < 2 {
        return Err(refused_at(Fault::LedgerMisfit, from.place));
    }
    let count = get_be(from.ledger, from.place, 2);
    let first = Step {
        ledger: from.ledger,
        place: from.place + 2,
        at: from.at,
        last: count,
    };
    read_entries(first, edition, table, count, out)
}

// Ids 5 to 255: the bytes behind the table id are the body. They are stored where there is room for all of them,
// and else the buffer stays as it is.
fn copy_opaque(ledger: &[u8], out: &mut [u8])
    requires { 4 ≤ length ledger.now }
    ensures { out.new ≡ stored out.old 0 (drop 4 ledger.now) }
{
    copy_bytes(&ledger[4..], out);
}

// A table's fields, by its id; bytes may be over. Of the tables that are no list, id 2 alone has fields.
fn read_fields<'a>(
    edition: Edition,
    table_id: u8,
    ledger: &'a [u8],
    out: &mut [u8],
) -> Result<Step<'a>, Refusal>
    requires { Framed ledger.now }
    ensures { Holds (bits_in edition) ledger.now (fields_as edition (length ledger.now) (layout table_id) (drop 4 ledger.now))
        0 out.old out.new result }
{
    let first = Step {
        ledger,
        place: 4,
        at: 0,
        last: 0,
    };
    match ListTable::of(table_id) {
        Some(table) => match table {
            ListTable::PositionV2 | ListTable::CellFragment | ListTable::BeamhoppingTimePlan => {
                read_list(first, edition, table, out)
            }
            ListTable::PositionV3 => {
                let header = read_header(first, out)?;
                read_list(header, edition, table, out)
            }
        },
        None if table_id == 2 => read_association(first, out),
        None => {
            copy_opaque(ledger, out);
            Ok(Step {
                ledger,
                place: ledger.len(),
                at: 8 * (ledger.len() - 4),
                last: 0,
            })
        }
    }
}

// All that follows a ledger's table id: the fields, and nothing over.
fn read_content<'a>(
    edition: Edition,
    table_id: u8,
    ledger: &'a [u8],
    out: &mut [u8],
) -> Result<Step<'a>, Refusal>
    requires { Framed ledger.now }
    ensures { Holds (bits_in edition) ledger.now (content_as edition (length ledger.now) (layout table_id) (drop 4 ledger.now))
        0 out.old out.new result }
{
    let fields = read_fields(edition, table_id, ledger, out)?;
    if fields.place < ledger.len() {
        return Err(refused_at(Fault::LedgerMisfit, fields.place));
    }
    Ok(fields)
}

// What a ledger stands for: its edition, its table id and the length of the body.
#[derive(Clone, Copy)]
pub struct Measured {
    pub edition: Edition,
    pub output: Output,
}

// The measure of a ledger, or why it is refused: no buffer is needed for it.
pub fn measure(ledger: &[u8]) -> Result<Measured, Refusal>
    ensures { Measures ledger.now result }
{
    if ledger.len() < 4 || get_be(ledger, 0, 2) != (ledger.len() - 2) as u64 {
        return Err(refused_at(Fault::LedgerMisfit, 0));
    }
    let Ok(edition) = Edition::try_from(ledger[2]) else {
        return Err(refused_at(Fault::VersionUnknown, 2));
    };
    let table_id = ledger[3];
    let content = read_content(edition, table_id, ledger, &mut [])?;
    let length = content.at / 8;
    let long = 4096 < length;
    if long {
        return Err(Refusal {
            fault: Fault::RestoredTooLong,
            need: length,
            have: 4096,
        });
    }
    Ok(Measured {
        edition,
        output: Output { table_id, length },
    })
}

// The table id and the length of the body of a ledger.
pub fn ledger_measure(ledger: &[u8]) -> Result<Output, Refusal>
    ensures { result ≡ measure_of ledger.now }
{
    Ok(measure(ledger)?.output)
}

// The body of a ledger, stored from the buffer's start on where there is room for it.
pub fn ledger_read(ledger: &[u8], out: &mut [u8]) -> Result<Output, Refusal>
    ensures { (result ≡ read_answer ledger.now (length out.old)) × (out.new ≡ read_left ledger.now out.old) }
{
    let measured = measure(ledger)?;
    let table_id = measured.output.table_id;
    let output = fitted(table_id, measured.output.length, out.len())?;
    // The same steps again: none of them is refused now.
    read_content(measured.edition, table_id, ledger, out)?;
    Ok(output)
}
