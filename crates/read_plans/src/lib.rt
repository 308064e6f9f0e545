// Id 3: a beam hopping time plan of a ledger, laid as the bits of a body.
#![tactic(auto)]

ghost use Rattle.std.specs.Prelude.{◌≡◌, ◌+◌, ◌*◌, ◌≤◌, ◌<◌, length};
ghost use Rattle.format.specs.Digits.{bits_of};
ghost use Rattle.format.specs.Syntax.{Name, Syntax, end, slots, raw};
ghost use Rattle.format.specs.declared.Fault.TheVariants.{SlotsCut};
ghost use Rattle.format.specs.Tables.{bitmap, mode, hopping, beamhopping};
ghost use Rattle.runs.specs.Stored.{stored};
ghost use Rattle.read_runs.specs.Came.{Way, way_of, LaidFrom};
ghost use Rattle.read_plans.specs.Taken.{TakenFrom, Spared, Opened, Closed, leaves_by};

use bits::{get_be, value_at};
use format::{Edition, Fault, Refusal};
use read_runs::{Step, lay, read_run, refused_at};
use runs::{copy_bytes, marks};

// Stores bytes at a bit place where there is room for them, and else leaves the buffer as it is; at a byte place they
// are copied.
fn lay_bytes(bytes: &[u8], out: &mut [u8], at: usize)
    requires { at + 8 * length bytes.now ≤ 600000 }
    ensures { bits_of out.new ≡ stored (bits_of out.old) at (bits_of bytes.now) }
{
    if out.len() < (at + 8 * bytes.len() + 7) / 8 {
        return;
    }
    if at % 8 == 0 {
        copy_bytes(bytes, &mut out[at / 8..]);
        return;
    }
    for (i, &byte) in bytes.iter().enumerate() {
        lay(out, at + 8 * i, 8, byte as u64);
    }
}

// Slots: so many single bits in bytes that are laid as they are, once the bits behind the slots are known to be zero.
// Inlined for speed, as `read_bitmap`, `read_mode` and `read_hopping` are: since the converter calls the last one too,
// the compiler would not do so by itself, and reading plans would take up to 5 % more instructions.
#[inline(always)]
fn read_slots<'a>(from: Step<'a>, m: usize, out: &mut [u8]) -> Result<Step<'a>, Refusal>
    requires m_bound { m < 32768 }
    ensures { (way : Way) (nm : Name) (s : Syntax)
        → LaidFrom way from.entry (slots nm SlotsCut m s) out.old (λ _. s) out.new result }
{
    let whole = (m + 7) / 8;
    if from.ledger.len() - from.place < whole {
        return Err(refused_at(Fault::LedgerMisfit, from.place));
    }
    let end = from.place + whole;
    let packed = &from.ledger[from.place..end];
    if value_at(packed, m as u16, 8 * whole - m) != 0 {
        return Err(refused_at(Fault::ValueMisfit, from.place));
    }
    lay_bytes(packed, out, from.at);
    Ok(Step {
        ledger: from.ledger,
        place: end,
        at: from.at + 8 * whole,
        last: 0,
    })
}

// Raw bytes or filler, behind their 2-byte count.
fn read_raw<'a>(from: Step<'a>, out: &mut [u8]) -> Result<Step<'a>, Refusal>
    ensures { (way : Way) (nm : Name) → LaidFrom way from.entry (raw nm) out.old (λ _. end) out.new result }
{
    if from.ledger.len() - from.place < 2 {
        return Err(refused_at(Fault::LedgerMisfit, from.place));
    }
    let count = get_be(from.ledger, from.place, 2) as usize;
    let start = from.place + 2;
    if from.ledger.len() - start < count {
        return Err(refused_at(Fault::LedgerMisfit, start));
    }
    let end = start + count;
    lay_bytes(&from.ledger[start..end], out, from.at);
    Ok(Step {
        ledger: from.ledger,
        place: end,
        at: from.at + 8 * count,
        last: 0,
    })
}

// Mode 1: a map of slots.
#[inline(always)]
fn read_bitmap<'a>(from: Step<'a>, out: &mut [u8]) -> Result<Step<'a>, Refusal>
    ensures { (way : Way) → LaidFrom way from.entry bitmap out.old (λ _. end) out.new result }
{
    let size = read_run(from, &marks::SLOT, out)?;
    let current = read_run(size, &marks::SLOT, out)?;
    read_slots(current, size.last as usize, out)
}

// The fields of a plan's mode. `kind` is the number of the mode's field, and each of the four has its fields.
#[inline(always)]
fn read_mode<'a>(from: Step<'a>, kind: u64, out: &mut [u8]) -> Result<Step<'a>, Refusal>
    ensures { (way : Way) → LaidFrom way from.entry (mode kind) out.old (λ _. end) out.new result }
{
    match kind {
        0 => read_run(from, &marks::CLOCKS, out),
        1 => read_bitmap(from, out),
        2 => read_run(from, &marks::GRID, out),
        _ => read_raw(from, out),
    }
}

// What a plan's length counts.
#[inline(always)]
pub fn read_hopping<'a>(from: Step<'a>, out: &mut [u8]) -> Result<Step<'a>, Refusal>
    ensures laid { (way : Way) → LaidFrom way from.entry hopping out.old (λ _. end) out.new result }
    ensures spared { Spared from.entry.place from.entry.at result }
{
    let head = read_run(from, &marks::MODE, out)?;
    let clocks = read_run(head, &marks::CLOCKS, out)?;
    read_mode(clocks, head.last, out)
}

// Whether a plan of so many bytes leaves fields and filler of so many bits, by its mode, which is the
// number of its field; last: it may end past the data.
fn leaves_by(last: bool, length: usize, fields: usize, filler: usize, mode: u64) -> bool
    requires { (length ≤ 65535) × (fields ≤ 1000000) × (filler ≤ 1000000) }
    ensures { result ≡ leaves_by last length fields filler mode }
{
    let there = fields + filler;
    if there == 8 * length {
        return mode != 3 || filler == 0;
    }
    last && there < 8 * length && (mode != 3 || fields == 104)
}

// A plan's length. The second edition has it as a field; in the first its bits stay open until the fields are laid.
fn read_length<'a>(from: Step<'a>, edition: Edition, out: &mut [u8]) -> Result<Step<'a>, Refusal>
    requires ahead { from.at + 12 ≤ 8 * from.place }
    ensures { Opened edition from.entry.ledger.now from.entry.place from.entry.at out.old out.new result }
{
    match edition {
        Edition::First => Ok(Step {
            ledger: from.ledger,
            place: from.place,
            at: from.at + 12,
            last: 0,
        }),
        Edition::Second => read_run(from, &marks::PLAN_LENGTH, out),
    }
}

// The filler of a plan, and the test of its length, its raw bytes and the filler; `start` is the step that came to the
// plan's length, and `hopping` the one that came to the filler.
fn read_filler<'a>(
    start: Step<'a>,
    hopping: Step<'a>,
    last: bool,
    out: &mut [u8],
) -> Result<Step<'a>, Refusal>
    requires start_bound { (start.at + 12 ≤ hopping.at) × (start.place + 3 ≤ hopping.place) }
    ensures { Closed last hopping.entry.ledger.now start.entry.place start.entry.at
        hopping.entry.place hopping.entry.at out.old out.new result }
{
    let filler = read_raw(hopping, out)?;
    let length = get_be(hopping.ledger, start.place, 2) as usize;
    let mode = get_be(hopping.ledger, start.place + 3, 1);
    if leaves_by(
        last,
        length,
        hopping.at - (start.at + 12),
        filler.at - hopping.at,
        mode,
    ) {
        return Ok(filler);
    }
    Err(refused_at(Fault::PlanLengthMisfit, hopping.place + 2))
}

// A plan, in an edition, with a byte of the ledger to spare (`ahead`); last: none follows it, so that it may end past
// the data. In the first edition the length is not in the ledger, and is stored once the fields that it counts are
// laid.
pub fn read_plan<'a>(
    from: Step<'a>,
    edition: Edition,
    last: bool,
    out: &mut [u8],
) -> Result<Step<'a>, Refusal>
    requires ahead { from.at + 8 ≤ 8 * from.place }
    ensures { TakenFrom (way_of edition last) from.entry beamhopping out.old out.new result }
{
    let head = read_run(from, &marks::PLAN, out)?;
    let length = read_length(head, edition, out)?;
    let hopping = read_hopping(length, out)?;
    match edition {
        Edition::First => {
            lay(out, head.at, 12, ((hopping.at - length.at) / 8) as u64);
            Ok(hopping)
        }
        Edition::Second => read_filler(head, hopping, last, out),
    }
}
