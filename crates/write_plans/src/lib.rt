// Id 3: a beam hopping time plan of a body, written as a ledger has it.
#![tactic(auto)]

ghost use Rattle.std.specs.Prelude.{◌≡◌, cond, ◌+◌, ◌-◌, ◌*◌, ◌%◌, ◌≤◌, ◌<◌, leb, length, take, drop};
ghost use Rattle.format.specs.Digits.{digits, bits_of};
ghost use Rattle.format.specs.Syntax.{Name, Syntax, end, slots, plan, raw, added};
ghost use Rattle.format.specs.Ledger.{counted_bytes};
ghost use Rattle.format.specs.Tables.{bitmap, mode, hopping, beamhopping};
ghost use Rattle.format.specs.declared.Fault.TheVariants.{SlotsCut};
ghost use Rattle.runs.specs.Stored.{stored};
ghost use Rattle.write_runs.specs.Went.{Around, outside, inside, RanFrom};
ghost use Rattle.write_plans.specs.Appended.{Appended};
ghost use Rattle.write_plans.specs.Ragged.{Ragged};
ghost use Rattle.write_plans.specs.Slots.{packed_bits};

use bits::{Cursor, read_u, value_at};
use format::{Edition, Fault, Refusal};
use runs::{copy_bytes, marks};
use write_runs::{Step, enough, put, write_needed, write_run};

// m bits of a body as bytes, the last one filled up with zeros, where there is room for all of them; whole bytes are
// copied. By places, since no field is gone over that a step could tell of; so is `write_length`.
fn write_bits(body: &[u8], at: u16, m: usize, out: &mut [u8], place: usize)
    requires { (length body.now ≤ 4096) × (at + m ≤ 8 * length body.now) × (place ≤ 40000) }
    ensures { out.new ≡ stored out.old place (packed_bits body.now at m) }
{
    let whole = (m + 7) / 8;
    if out.len() < place + whole {
        return;
    }
    let from = at as usize;
    if from % 8 == 0 && m % 8 == 0 {
        copy_bytes(&body[from / 8..from / 8 + whole], &mut out[place..]);
        return;
    }
    for i in 0..whole {
        let width = (m - 8 * i).min(8);
        let v = value_at(body, (from + 8 * i) as u16, width);
        put(out, place + i, 1, v << (8 - width));
    }
}

// Slots: so many single bits from a byte on (`at_value`; see `Step`), and padding to the byte.
fn write_slots<'a>(from: Step<'a>, m: usize, out: &mut [u8]) -> Result<Step<'a>, Refusal>
    requires at_value { (from.at % 8 ≡ 0) × (m < 32768) }
    ensures { (e : Around) (nm : Name) (s : Syntax)
        → RanFrom from.entry e (slots nm SlotsCut m s) out.old (λ _. s) out.new result }
{
    enough(from, Fault::SlotsCut, m)?;
    write_bits(from.body, from.at, m, out, from.place);
    let whole = (m + 7) / 8;
    Ok(Step {
        body: from.body,
        place: from.place + whole,
        at: (from.at as usize + 8 * whole) as u16,
        last: 0,
    })
}

// The bits of a plan's raw bytes: those up to its end, or none where that is past the data.
fn raw_bits(at: u16, stop: u16, n: usize) -> usize
    ensures { result ≡ cond (leb stop n) (stop - at) 0 }
{
    if n < stop as usize {
        return 0;
    }
    stop.saturating_sub(at) as usize
}

// Whole bytes of a body, given in bits, behind their count; the place behind them.
fn write_bytes(from: Step, m: usize, out: &mut [u8]) -> usize
    requires { (from.at + m ≤ 8 * length from.body.now) × (m % 8 ≡ 0) }
    ensures { Appended out.old from.entry.place
        (counted_bytes (take m (drop from.entry.at (bits_of from.entry.body.now)))) out.new result }
{
    put(out, from.place, 2, (m / 8) as u64);
    write_bits(from.body, from.at, m, out, from.place + 2);
    from.place + 2 + m / 8
}

// Raw bytes, behind their count, which takes no bits of the body: so its two bytes are asked for (`spare`). A plan's
// end starts a byte, as its start does.
fn write_raw<'a>(from: Step<'a>, stop: u16, out: &mut [u8]) -> Result<Step<'a>, Refusal>
    requires at_value { (from.at % 8 ≡ 0) × (stop % 8 ≡ 0) }
    requires spare { from.place ≤ from.at + 6 }
    ensures { (ed : Edition) (nm : Name)
        → Ragged from.entry.body.now (inside ed stop) (raw nm) from.entry.at from.entry.place out.old out.new result }
{
    let m = raw_bits(from.at, stop, 8 * from.body.len());
    let place = write_bytes(from, m, out);
    Ok(Step {
        body: from.body,
        place,
        at: (from.at as usize + m) as u16,
        last: 0,
    })
}

// Mode 1: a map of slots.
fn write_bitmap<'a>(from: Step<'a>, out: &mut [u8]) -> Result<Step<'a>, Refusal>
    requires at_value { from.at % 8 ≡ 0 }
    ensures { (e : Around) → RanFrom from.entry e bitmap out.old (λ _. end) out.new result }
{
    let size = write_needed(from, Fault::BitmapHeaderCut, 32, &marks::SLOT, out)?;
    let current = write_run(size, &marks::SLOT, out)?;
    write_slots(current, size.last as usize, out)
}

// The fields of a plan's mode.
fn write_mode<'a>(from: Step<'a>, stop: u16, kind: u64, out: &mut [u8]) -> Result<Step<'a>, Refusal>
    requires at_value { (from.at % 8 ≡ 0) × (stop % 8 ≡ 0) }
    requires spare { from.place ≤ from.at + 6 }
    ensures { (ed : Edition)
        → Ragged from.entry.body.now (inside ed stop) (mode kind) from.entry.at from.entry.place
        out.old out.new result }
{
    // The mode's number, as its field has it: of 0 to 3 each has its arm.
    match kind {
        0 => write_needed(from, Fault::DwellCut, 96, &marks::CLOCKS, out),
        1 => write_bitmap(from, out),
        2 => write_needed(from, Fault::GridCut, 192, &marks::GRID, out),
        _ => write_raw(from, stop, out),
    }
}

// What stands within a plan that ends at a place.
fn write_hopping<'a>(from: Step<'a>, stop: u16, out: &mut [u8]) -> Result<Step<'a>, Refusal>
    requires at_value { (from.at % 8 ≡ 0) × (stop % 8 ≡ 0) }
    ensures { (ed : Edition) → RanFrom from.entry (inside ed stop) hopping out.old (λ _. end) out.new result }
{
    let head = write_run(from, &marks::MODE, out)?;
    let clocks = write_run(head, &marks::CLOCKS, out)?;
    write_mode(clocks, stop, head.last, out)
}

// A plan's length, which the second edition has; the place behind it.
fn write_length(edition: Edition, length: u64, out: &mut [u8], place: usize) -> usize
    requires { place ≤ 39000 }
    ensures { Appended out.old place (added edition (digits 256 2 length)) out.new result }
{
    match edition {
        Edition::First => place,
        Edition::Second => {
            put(out, place, 2, length);
            place + 2
        }
    }
}

// A plan's filler, from the fields' end up to the next place, which the second edition has; the place behind it.
fn write_filler(from: Step, next: u16, edition: Edition, out: &mut [u8]) -> usize
    requires { (from.at ≤ next) × (next ≤ 8 * length from.body.now) × (from.at % 8 ≡ 0) × (next % 8 ≡ 0) }
    ensures { Appended out.old from.entry.place
        (added edition (counted_bytes (take (next - from.entry.at) (drop from.entry.at (bits_of from.entry.body.now)))))
        out.new result }
{
    match edition {
        Edition::First => from.place,
        Edition::Second => write_bytes(from, (next - from.at) as usize, out),
    }
}

// A plan's length, what it is the length of, and the filler. The next place is the plan's end, or the data's if that
// comes first.
fn write_ended<'a>(from: Step<'a>, edition: Edition, out: &mut [u8]) -> Result<Step<'a>, Refusal>
    requires at_value { (from.at + 12) % 8 ≡ 0 }
    ensures { RanFrom from.entry (outside edition) (plan "plan_length" hopping) out.old (λ _. end) out.new result }
{
    let cursor = Cursor {
        body: from.body,
        at: from.at,
    };
    let bytes = read_u(cursor, 12)?;
    let stop = (bytes.next as usize + 8 * (bytes.value as usize)) as u16;
    let place = write_length(edition, bytes.value, out, from.place);
    let start = Step {
        body: from.body,
        place,
        at: bytes.next,
        last: 0,
    };
    let hopping = write_hopping(start, stop, out)?;
    let passed = stop < hopping.at;
    if passed {
        return Err(Refusal {
            fault: Fault::PlanOverrun,
            need: (hopping.at - stop) as usize,
            have: 0,
        });
    }
    let next = (stop as usize).min(8 * from.body.len()) as u16;
    let behind = write_filler(hopping, next, edition, out);
    Ok(Step {
        body: from.body,
        place: behind,
        at: next,
        last: hopping.last,
    })
}

// A plan, in an edition.
pub fn write_plan<'a>(from: Step<'a>, edition: Edition, out: &mut [u8]) -> Result<Step<'a>, Refusal>
    requires at_value { from.at % 8 ≡ 0 }
    ensures { RanFrom from.entry (outside edition) beamhopping out.old (λ _. end) out.new result }
{
    let head = write_run(from, &marks::PLAN, out)?;
    write_ended(head, edition, out)
}
