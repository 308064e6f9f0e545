// The header and the entries of id 4, gone through in a ledger and laid as a body on the way: runs of fields by their
// marks.
#![tactic(auto)]

ghost use Rattle.std.specs.Prelude.{◌≡◌, ◌%◌};
ghost use Rattle.format.specs.declared.Fault.{Fault};
ghost use Rattle.format.specs.Syntax.{Name, Syntax, end};
ghost use Rattle.format.specs.Tables.{times, header, usable, metadata, ephemeris, covariance, ephemerides, position3};
ghost use Rattle.std.specs.Int.{from_bool};
ghost use Rattle.read_runs.specs.Came.{Way, LaidFrom};
ghost use Rattle.runs.specs.Flagged.{flagged};

use format::Refusal;
use read_runs::{Step, byte_of, read_run};
use runs::{Flags, marks};

// The header.
pub fn read_header<'a>(from: Step<'a>, out: &mut [u8]) -> Result<Step<'a>, Refusal>
    ensures { (way : Way) → LaidFrom way from.entry header out.old (λ _. end) out.new result }
{
    read_run(from, &marks::HEADER, out)
}

// A usable time, where its flag is set.
fn read_usable<'a>(from: Step<'a>, flag: bool, out: &mut [u8]) -> Result<Step<'a>, Refusal>
    ensures { (way : Way) (fault : Fault) (nm : Name) (s : Syntax)
        → LaidFrom way from.entry (usable fault nm (from_bool flag) s) out.old (λ _. s) out.new result }
{
    if flag {
        return read_run(from, &marks::STAMP, out);
    }
    Ok(from)
}

// The metadata, with the usable times whose flags are set.
fn read_metadata<'a>(from: Step<'a>, flags: Flags, out: &mut [u8]) -> Result<Step<'a>, Refusal>
    ensures { (way : Way) (s : Syntax)
        → LaidFrom way from.entry (metadata (from_bool flags.start) (from_bool flags.stop) s) out.old (λ _. s) out.new result }
{
    let times = read_run(from, &marks::METADATA, out)?;
    let first = read_usable(times, flags.start, out)?;
    read_usable(first, flags.stop, out)
}

// The covariance, where its flag is set: a stamp and 21 values.
fn read_covariance<'a>(from: Step<'a>, flag: bool, out: &mut [u8]) -> Result<Step<'a>, Refusal>
    ensures { (way : Way) → LaidFrom way from.entry (covariance (from_bool flag)) out.old (λ _. end) out.new result }
{
    if flag {
        return read_run(from, &marks::COVARIANCE, out);
    }
    Ok(from)
}

// One ephemeris entry, with acceleration where its flag is set.
fn read_entry<'a>(from: Step<'a>, accel: bool, out: &mut [u8]) -> Result<Step<'a>, Refusal>
    ensures { (way : Way) (s : Syntax)
        → LaidFrom way from.entry (ephemeris (from_bool accel) s) out.old (λ _. s) out.new result }
{
    if accel {
        return read_run(from, &marks::ACCELERATED, out);
    }
    read_run(from, &marks::MOTION, out)
}

// The next entry, laid from the start on of the part of the buffer that starts where the last one ended, at a byte
// (`at_value`; see `Step`).
fn read_next<'a>(from: Step<'a>, accel: bool, out: &mut [u8]) -> Result<Step<'a>, Refusal>
    requires at_value { from.at % 8 ≡ 0 }
    ensures { (way : Way) (s : Syntax)
        → LaidFrom way from.entry (ephemeris (from_bool accel) s) out.old (λ _. s) out.new result }
{
    let start = byte_of(from.at, out.len());
    let first = Step {
        ledger: from.ledger,
        place: from.place,
        at: 0,
        last: 0,
    };
    let entry = read_entry(first, accel, &mut out[start..])?;
    Ok(Step {
        ledger: entry.ledger,
        place: entry.place,
        at: from.at + entry.at,
        last: entry.last,
    })
}

// So many ephemeris entries.
fn read_each<'a>(
    from: Step<'a>,
    accel: bool,
    count: u64,
    out: &mut [u8],
) -> Result<Step<'a>, Refusal>
    requires at_value { from.at % 8 ≡ 0 }
    ensures { (way : Way) (s : Syntax)
        → LaidFrom way from.entry (times count (ephemeris (from_bool accel)) s) out.old (λ _. s) out.new result }
{
    let mut step = from;
    for _ in 0..count {
        step = read_next(step, accel, out)?;
    }
    Ok(step)
}

// The ephemeris entries behind their count, and the covariance.
fn read_ephemerides<'a>(from: Step<'a>, flags: Flags, out: &mut [u8]) -> Result<Step<'a>, Refusal>
    requires at_value { from.at % 8 ≡ 0 }
    ensures { (way : Way)
        → LaidFrom way from.entry (ephemerides (from_bool flags.acceleration) (from_bool flags.covariance)) out.old (λ _. end) out.new result }
{
    let head = read_run(from, &marks::EPHEMERIS_COUNT, out)?;
    let each = read_each(head, flags.acceleration, head.last, out)?;
    read_covariance(each, flags.covariance, out)
}

// What follows the flags, with which a byte is full: the metadata if there is one, and the ephemeris entries.
fn read_flagged<'a>(from: Step<'a>, flags: Flags, out: &mut [u8]) -> Result<Step<'a>, Refusal>
    requires at_value { from.at % 8 ≡ 0 }
    ensures { (way : Way) → LaidFrom way from.entry (flagged flags) out.old (λ _. end) out.new result }
{
    if flags.metadata {
        let about = read_metadata(from, flags, out)?;
        return read_ephemerides(about, flags, out);
    }
    read_ephemerides(from, flags, out)
}

// A satellite's entry, which starts on a byte. Each flag is a run of its own, since what follows asks for all of them.
pub fn read_position3<'a>(from: Step<'a>, out: &mut [u8]) -> Result<Step<'a>, Refusal>
    requires at_value { from.at % 8 ≡ 0 }
    ensures { (way : Way) → LaidFrom way from.entry position3 out.old (λ _. end) out.new result }
{
    let head = read_run(from, &marks::SATELLITE3, out)?;
    let start = read_run(head, &marks::FLAG, out)?;
    let stop = read_run(start, &marks::FLAG, out)?;
    let accel = read_run(stop, &marks::FLAG, out)?;
    let cov = read_run(accel, &marks::FLAG, out)?;
    let flags = Flags {
        metadata: head.last == 1,
        start: start.last == 1,
        stop: stop.last == 1,
        acceleration: accel.last == 1,
        covariance: cov.last == 1,
    };
    read_flagged(cov, flags, out)
}
