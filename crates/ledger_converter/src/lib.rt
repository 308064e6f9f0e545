// A ledger moved between editions. It is measured first as the ledger reader does it, so that its own faults come
// first; then its content is gone through, with no buffer for its size or the refusal, and again with the buffer that
// is lent. Under every id but 3 the content is the same in either edition, and is copied.
#![tactic(auto)]

ghost use Rattle.std.specs.Prelude.{◌≡◌, ◌+◌, ◌≤◌, length};
ghost use Rattle.format.specs.declared.Edition.TheVariants.{First, Second};
ghost use Rattle.format.specs.Convert.{converted, convert_answer, convert_left};
ghost use Rattle.runs.specs.Appended.{AppendedAt};
ghost use Rattle.ledger_reader.specs.Makes.{ReadAs, Makes};
ghost use Rattle.ledger_converter.specs.Measure.{convert_measure};
ghost use Rattle.ledger_converter.specs.Plans.{bytes_in, has_all, FieldsAt, PlanThere, PlanAt};
ghost use Rattle.ledger_converter.specs.Steps.{PlansThere, Plans, Content};

use bits::get_be;
use format::{Edition, Fault, Output, Refusal, fitted};
use ledger_reader::{Measured, measure};
use read_plans::read_hopping;
use read_runs::Step;
use runs::{append, append_pair};

// The bytes of a plan in front of its length: its id and reserved bits.
const HEAD: usize = 5;

// The fields that a plan's length counts: their bytes in a ledger, how many they take in a body, which is the exact
// length, and the place behind them.
#[derive(Clone, Copy)]
struct Fields<'a> {
    bytes: &'a [u8],
    exact: u64,
    end: usize,
}

// A plan of a ledger in its parts: the bytes of its head, its length, its fields, the bytes of its filler, and the
// place behind it.
#[derive(Clone, Copy)]
struct Plan<'a> {
    head: &'a [u8],
    length: u64,
    fields: Fields<'a>,
    filler: &'a [u8],
    next: usize,
}

// A plan's fields, from a place of a ledger on. They are read as the ledger reader reads them, with nothing stored.
fn fields_at<'a>(ledger: &'a [u8], start: usize) -> Result<Fields<'a>, Refusal>
    requires { (start ≤ length ledger.now) × (length ledger.now ≤ 65537) }
    ensures { FieldsAt ledger.now start result }
{
    let from = Step {
        ledger,
        place: start,
        at: 0,
        last: 0,
    };
    let fields = read_hopping(from, &mut [])?;
    let end = fields.place;
    Ok(Fields {
        bytes: &ledger[start..end],
        exact: (fields.at / 8) as u64,
        end,
    })
}

// A plan of edition 1 at a place where one is read: its length is the exact one, and it has no filler.
fn plan_of_first<'a>(ledger: &'a [u8], place: usize) -> Result<Plan<'a>, Refusal>
    requires { PlanThere First ledger.now place }
    ensures { PlanAt First ledger.now place result }
{
    let start = place + HEAD;
    let fields = fields_at(ledger, start)?;
    Ok(Plan {
        head: &ledger[place..start],
        length: fields.exact,
        fields,
        filler: &[],
        next: fields.end,
    })
}

// A plan of edition 2, with its length in front of its fields and its filler behind them.
fn plan_of_second<'a>(ledger: &'a [u8], place: usize) -> Result<Plan<'a>, Refusal>
    requires { PlanThere Second ledger.now place }
    ensures { PlanAt Second ledger.now place result }
{
    let start = place + HEAD;
    let length = get_be(ledger, start, 2);
    let fields = fields_at(ledger, start + 2)?;
    let filler = fields.end + 2;
    let next = filler + get_be(ledger, fields.end, 2) as usize;
    Ok(Plan {
        head: &ledger[place..start],
        length,
        fields,
        filler: &ledger[filler..next],
        next,
    })
}

// A plan at a place of a ledger of an edition, where one is read.
fn plan_at<'a>(ledger: &'a [u8], place: usize, edition: Edition) -> Result<Plan<'a>, Refusal>
    requires { PlanThere edition ledger.now place }
    ensures { PlanAt edition ledger.now place result }
{
    match edition {
        Edition::First => plan_of_first(ledger, place),
        Edition::Second => plan_of_second(ledger, place),
    }
}

// Whether an edition has all of a plan: the first has no filler, and exact lengths.
fn has_all(edition: Edition, plan: Plan) -> bool
    ensures { result ≡ has_all edition plan.entry }
{
    match edition {
        Edition::First => plan.length == plan.fields.exact && plan.filler.is_empty(),
        Edition::Second => true,
    }
}

// Stores a plan as an edition has it, where there is room for it; the place behind it.
fn append_plan(edition: Edition, plan: Plan, out: &mut [u8], at: usize) -> usize
    requires at_bound { at ≤ 600000 }
    requires few { length plan.head.now + (length plan.fields.bytes.now + length plan.filler.now) ≤ 65537 }
    ensures { AppendedAt (bytes_in edition plan.entry) at out.old out.new result }
{
    let behind = append(plan.head, out, at);
    match edition {
        Edition::First => append(plan.fields.bytes, out, behind),
        Edition::Second => {
            let start = append_pair(plan.length, out, behind);
            let end = append(plan.fields.bytes, out, start);
            let filler = append_pair(plan.filler.len() as u64, out, end);
            append(plan.filler, out, filler)
        }
    }
}

// The plans of a ledger behind their count, from the place behind the table id on, as an edition has them, where there
// is room for them; the place behind them.
fn convert_plans(
    from: Edition,
    edition: Edition,
    ledger: &[u8],
    out: &mut [u8],
) -> Result<usize, Refusal>
    requires { PlansThere from ledger.now }
    ensures { Plans from edition ledger.now out.old out.new result }
{
    let count = get_be(ledger, 4, 2);
    let mut at = append(&ledger[4..6], out, 4);
    let mut place = 6;
    for i in 0..count {
        let plan = plan_at(ledger, place, from)?;
        if !has_all(edition, plan) {
            return Err(Refusal {
                fault: Fault::PlanInexact,
                need: i as usize,
                have: 0,
            });
        }
        at = append_plan(edition, plan, out, at);
        place = plan.next;
    }
    Ok(at)
}

// What stands behind a ledger's table id, as an edition has it, where there is room for it; the place behind it.
fn convert_content(
    from: Edition,
    edition: Edition,
    table_id: u8,
    ledger: &[u8],
    out: &mut [u8],
) -> Result<usize, Refusal>
    requires { ReadAs from table_id ledger.now }
    ensures { Content edition ledger.now out.old out.new result }
{
    if table_id == 3 {
        return convert_plans(from, edition, ledger, out);
    }
    Ok(append(&ledger[4..], out, 4))
}

// The edition that a ledger has, its table id, and its length in the edition that is wanted; or the refusal.
fn measure_in(edition: Edition, ledger: &[u8]) -> Result<Measured, Refusal>
    ensures { Makes ledger.now (converted edition ledger.now) result }
{
    let held = measure(ledger)?;
    let table_id = held.output.table_id;
    let length = convert_content(held.edition, edition, table_id, ledger, &mut [])?;
    Ok(Measured {
        edition: held.edition,
        output: Output { table_id, length },
    })
}

// The table id and the length of a ledger in the edition that is wanted: no buffer is needed for them.
pub fn convert_measure(edition: Edition, ledger: &[u8]) -> Result<Output, Refusal>
    ensures { result ≡ convert_measure edition ledger.now }
{
    Ok(measure_in(edition, ledger)?.output)
}

// A ledger in the edition that is wanted, stored from the buffer's start on where there is room for it; after a refusal
// the buffer is as it was.
pub fn ledger_convert(edition: Edition, ledger: &[u8], out: &mut [u8]) -> Result<Output, Refusal>
    ensures { (result ≡ convert_answer edition ledger.now (length out.old))
        × (out.new ≡ convert_left edition ledger.now out.old) }
{
    let measured = measure_in(edition, ledger)?;
    let table_id = measured.output.table_id;
    let output = fitted(table_id, measured.output.length, out.len())?;
    let version = append_pair((output.length - 2) as u64, out, 0);
    append(&[edition.version(), table_id], out, version);
    // The same steps again: none of them is refused now.
    convert_content(measured.edition, edition, table_id, ledger, out)?;
    Ok(output)
}
