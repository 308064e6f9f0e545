// A ledger's copy without covariance. The ledger is measured first as the ledger reader does it, so that its own faults
// come first. Under id 4 it is then gone through satellite by satellite, by the bytes of its flags and counts alone:
// with no buffer for the copy's size, and again with the buffer that is lent. All bytes between a covariance flag and
// the next are copied but for the covariance; a ledger under another id is copied whole.
#![tactic(auto)]

ghost use Rattle.std.specs.Prelude.{◌≡◌, ◌+◌, ◌*◌, ◌-◌, ◌≤◌, ◌<◌, length};
ghost use Rattle.format.specs.Whole.{id_of, edition_of};
ghost use Rattle.format.specs.Redact.{redacted, redact_answer, redact_left};
ghost use Rattle.runs.specs.Appended.{AppendedAt, LedgerLaid};
ghost use Rattle.ledger_reader.specs.Makes.{ReadAs, Makes};
ghost use Rattle.ledger_redactor.specs.Measure.{redact_measure};
ghost use Rattle.ledger_redactor.specs.Places.{flags_at, usable_size, metadata_size, entry_size, covariance_size, covariance_at, behind_at, copy_to};

use bits::get_be;
use format::{Output, Refusal, fitted};
use ledger_reader::{Measured, measure};
use runs::{Flags, append, append_pair};

// The place of the count of satellites in a ledger of id 4, behind the front and the header.
const COUNT: usize = 14;

// The place of the first satellite.
const FIRST: usize = 16;

// Where a satellite's covariance stands in a ledger, from its first byte up to the satellite's end: nothing where the
// flag is not set.
#[derive(Clone, Copy)]
struct Covariance {
    start: usize,
    end: usize,
}

// The flags of the satellite at a place of a ledger.
fn flags_at(ledger: &[u8], place: usize) -> Flags
    requires { place + 10 ≤ length ledger.now }
    ensures { result ≡ flags_at ledger.now place }
{
    Flags {
        metadata: ledger[place + 5] == 1,
        start: ledger[place + 6] == 1,
        stop: ledger[place + 7] == 1,
        acceleration: ledger[place + 8] == 1,
        covariance: ledger[place + 9] == 1,
    }
}

// The bytes of a usable time, where its flag is set.
fn usable_size(flag: bool) -> usize
    ensures { result ≡ usable_size flag }
{
    if flag {
        return 8;
    }
    0
}

// The bytes of the metadata, where their flag is set.
fn metadata_size(flags: Flags) -> usize
    ensures { result ≡ metadata_size flags }
{
    if flags.metadata {
        return 20 + usable_size(flags.start) + usable_size(flags.stop);
    }
    0
}

// The bytes of so many ephemeris entries, with acceleration where its flag is set.
fn entries_size(count: usize, acceleration: bool) -> usize
    requires { count < 65536 }
    ensures { result ≡ count * entry_size acceleration }
{
    if acceleration {
        return 44 * count;
    }
    32 * count
}

// The bytes of the covariance, where its flag is set.
fn covariance_size(flag: bool) -> usize
    ensures { result ≡ covariance_size flag }
{
    if flag {
        return 92;
    }
    0
}

// The covariance of the satellite at a place of a ledger, which has all of it.
fn covariance_of(ledger: &[u8], place: usize) -> Covariance
    requires { (behind_at ledger.now place ≤ length ledger.now) × (length ledger.now ≤ 65537) }
    ensures start { result.start ≡ covariance_at ledger.now place }
    ensures end { result.end ≡ behind_at ledger.now place }
{
    let flags = flags_at(ledger, place);
    let count_place = place + 10 + metadata_size(flags);
    let count = get_be(ledger, count_place, 2) as usize;
    let start = count_place + 2 + entries_size(count, flags.acceleration);
    let end = start + covariance_size(flags.covariance);
    Covariance { start, end }
}

// Stores the satellite at a place up to its covariance, with the covariance flag 0, where there is room for it; the
// place behind it.
fn append_satellite(ledger: &[u8], place: usize, end: usize, out: &mut [u8], at: usize) -> usize
    requires within { (place + 10 ≤ end) × (end ≤ length ledger.now) }
    requires short { length ledger.now ≤ 65537 }
    requires at_bound { at ≤ 600000 }
    ensures { AppendedAt (copy_to ledger.now place end) at out.old out.new result }
{
    let flag = append(&ledger[place..place + 9], out, at);
    let rest = append(&[0], out, flag);
    append(&ledger[place + 10..end], out, rest)
}

// What stands behind the table id of a ledger of id 4, without covariance, where there is room for it; the place behind
// it.
fn redact_satellites(ledger: &[u8], out: &mut [u8]) -> usize
    requires { ReadAs (edition_of ledger.now) 4 ledger.now }
    ensures { LedgerLaid (edition_of ledger.now) (id_of ledger.now) (redacted ledger.now) out.old out.new result }
{
    let count = get_be(ledger, COUNT, 2);
    let mut at = append(&ledger[4..FIRST], out, 4);
    let mut place = FIRST;
    for _ in 0..count {
        let covariance = covariance_of(ledger, place);
        at = append_satellite(ledger, place, covariance.start, out, at);
        place = covariance.end;
    }
    at
}

// What stands behind a ledger's table id in the copy, where there is room for it; the place behind it.
fn redact_content(table_id: u8, ledger: &[u8], out: &mut [u8]) -> usize
    requires { ReadAs (edition_of ledger.now) table_id ledger.now }
    ensures { LedgerLaid (edition_of ledger.now) (id_of ledger.now) (redacted ledger.now) out.old out.new result }
{
    if table_id == 4 {
        return redact_satellites(ledger, out);
    }
    append(&ledger[4..], out, 4)
}

// The edition that a ledger has, its table id, and the length of its copy; or the refusal.
fn measure_copy(ledger: &[u8]) -> Result<Measured, Refusal>
    ensures { Makes ledger.now (redacted ledger.now) result }
{
    let held = measure(ledger)?;
    let table_id = held.output.table_id;
    let length = redact_content(table_id, ledger, &mut []);
    Ok(Measured {
        edition: held.edition,
        output: Output { table_id, length },
    })
}

// The table id and the length of a ledger's copy without covariance: no buffer is needed for them.
pub fn redact_measure(ledger: &[u8]) -> Result<Output, Refusal>
    ensures { result ≡ redact_measure ledger.now }
{
    Ok(measure_copy(ledger)?.output)
}

// A ledger's copy without covariance, stored from the buffer's start on where there is room for it; after a refusal the
// buffer is as it was.
pub fn ledger_redact(ledger: &[u8], out: &mut [u8]) -> Result<Output, Refusal>
    ensures { (result ≡ redact_answer ledger.now (length out.old)) × (out.new ≡ redact_left ledger.now out.old) }
{
    let measured = measure_copy(ledger)?;
    let table_id = measured.output.table_id;
    let output = fitted(table_id, measured.output.length, out.len())?;
    let version = append_pair((output.length - 2) as u64, out, 0);
    append(&[measured.edition.version(), table_id], out, version);
    redact_content(table_id, ledger, out);
    Ok(output)
}
