// Table 4 written as a ledger: its header, and its satellites with metadata, ephemeris entries and covariance.
#![tactic(auto)]

ghost use Rattle.std.specs.Prelude.{ℕ};
ghost use Rattle.std.specs.Int.{from_bool};
ghost use Rattle.format.specs.Syntax.{Name, Syntax, end};
ghost use Rattle.format.specs.Tables.{times, header, usable, metadata, ephemeris, ephemerides, position3};
ghost use Rattle.write_runs.specs.Went.{Around, RanFrom};
ghost use Rattle.runs.specs.Flagged.{flagged};
ghost use Rattle.write_ephemeris.specs.Rest.{ephemeris_to};

use format::{Fault, Refusal};
use runs::{Flags, marks};
use write_runs::{Step, enough, write_needed, write_run};

// Versions and creation date.
pub fn write_header<'a>(from: Step<'a>, out: &mut [u8]) -> Result<Step<'a>, Refusal>
    ensures { (e : Around) → RanFrom from.entry e header out.old (λ _. end) out.new result }
{
    enough(from, Fault::BodyEmpty, 1)?;
    write_needed(from, Fault::HeaderCut, 64, &marks::HEADER, out)
}

// A usable time, where its flag is set.
fn write_usable<'a>(
    from: Step<'a>,
    fault: Fault,
    flag: bool,
    out: &mut [u8],
) -> Result<Step<'a>, Refusal>
    ensures { (e : Around) (nm : Name) (s : Syntax)
        → RanFrom from.entry e (usable fault nm (from_bool flag) s) out.old (λ _. s) out.new result }
{
    if flag {
        return write_needed(from, fault, 56, &marks::STAMP, out);
    }
    Ok(from)
}

// The metadata, and the usable times behind them.
fn write_metadata<'a>(from: Step<'a>, flags: Flags, out: &mut [u8]) -> Result<Step<'a>, Refusal>
    ensures { (e : Around) (s : Syntax)
        → RanFrom from.entry e (metadata (from_bool flags.start) (from_bool flags.stop) s)
        out.old (λ _. s) out.new result }
{
    let fixed = write_needed(from, Fault::MetadataCut, 120, &marks::METADATA, out)?;
    let start = write_usable(fixed, Fault::UsableStartCut, flags.start, out)?;
    write_usable(start, Fault::UsableStopCut, flags.stop, out)
}

// One ephemeris entry, tested by itself.
fn write_entry<'a>(from: Step<'a>, accel: bool, out: &mut [u8]) -> Result<Step<'a>, Refusal>
    ensures { (e : Around) (k : ℕ → Syntax)
        → RanFrom from.entry e (ephemeris_to (from_bool accel) k) out.old k out.new result }
{
    if accel {
        return write_needed(from, Fault::EphemerisCut, 344, &marks::ACCELERATED, out);
    }
    write_needed(from, Fault::EphemerisCut, 248, &marks::MOTION, out)
}

// So many ephemeris entries, each in the part of the buffer that begins where the last one ended.
fn write_each<'a>(
    from: Step<'a>,
    accel: bool,
    count: u64,
    out: &mut [u8],
) -> Result<Step<'a>, Refusal>
    ensures { (e : Around) (s : Syntax)
        → RanFrom from.entry e (times count (ephemeris (from_bool accel)) s) out.old (λ _. s) out.new result }
{
    let mut at = from.at;
    let mut place = from.place;
    for _ in 0..count {
        let start = place.min(out.len());
        let part = Step {
            body: from.body,
            place: 0,
            at,
            last: 0,
        };
        let entry = write_entry(part, accel, &mut out[start..])?;
        at = entry.at;
        place += entry.place;
    }
    Ok(Step {
        body: from.body,
        place,
        at,
        last: 0,
    })
}

// The ephemeris entries behind their count, and the covariance where its flag is set.
fn write_ephemerides<'a>(from: Step<'a>, flags: Flags, out: &mut [u8]) -> Result<Step<'a>, Refusal>
    ensures { (e : Around)
        → RanFrom from.entry e (ephemerides (from_bool flags.acceleration) (from_bool flags.covariance))
        out.old (λ _. end) out.new result }
{
    let count = write_run(from, &marks::EPHEMERIS_COUNT, out)?;
    let each = write_each(count, flags.acceleration, count.last, out)?;
    if flags.covariance {
        return write_needed(each, Fault::CovarianceCut, 728, &marks::COVARIANCE, out);
    }
    Ok(each)
}

// What follows a satellite's flags.
fn write_flagged<'a>(from: Step<'a>, flags: Flags, out: &mut [u8]) -> Result<Step<'a>, Refusal>
    ensures { (e : Around) → RanFrom from.entry e (flagged flags) out.old (λ _. end) out.new result }
{
    if flags.metadata {
        let known = write_metadata(from, flags, out)?;
        return write_ephemerides(known, flags, out);
    }
    write_ephemerides(from, flags, out)
}

// A satellite.
pub fn write_position3<'a>(from: Step<'a>, out: &mut [u8]) -> Result<Step<'a>, Refusal>
    ensures { (e : Around) → RanFrom from.entry e position3 out.old (λ _. end) out.new result }
{
    let metadata = write_run(from, &marks::SATELLITE3, out)?;
    let start = write_run(metadata, &marks::FLAG, out)?;
    let stop = write_run(start, &marks::FLAG, out)?;
    let acceleration = write_run(stop, &marks::FLAG, out)?;
    let covariance = write_run(acceleration, &marks::FLAG, out)?;
    let flags = Flags {
        metadata: metadata.last == 1,
        start: start.last == 1,
        stop: stop.last == 1,
        acceleration: acceleration.last == 1,
        covariance: covariance.last == 1,
    };
    write_flagged(covariance, flags, out)
}
