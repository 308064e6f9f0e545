// Moves the ledgers of an archive, one after the other on standard input, to the edition that the one argument names,
// `1` or `2`. Ledgers go to standard output. One that can't be converted does not: a line on standard error has its
// place, the number of input bytes in front of it, and its refusal; the program goes on behind it, and fails at the
// end.
#![tactic(auto)]

ghost use Rattle.std.specs.Prelude.{◌≡◌, ◌≤◌, length};
ghost use Rattle.ledger_convert.specs.Archive.{edition_named, size_in_front};
ghost use Rattle.ledger_convert.specs.Streams.{Filled, Fetched, Sent, Ran};

use bits::get_be;
use format::Edition;
use ledger_converter::ledger_convert;
use ledger_text::{placed_line, refusal_line};
use std::io::{BufReader, BufWriter, ErrorKind, Read, Write};
use std::process::ExitCode;
use std::{env, io};

// The bytes of a ledger are at most these: its length counts what follows, in two bytes.
const LEDGER_MOST: usize = 65537;

// As many ledgers are taken at most; a place among them is a number of 64 bits.
const LEDGERS_MOST: u64 = 0x8000_0000_0000;

// Why a run ended before its input did: a read failed, in the ledger at this place; a write failed; or there were too
// many ledgers, and the next one has this place.
#[derive(Clone, Copy)]
enum Stop {
    Input(usize),
    Output,
    TooMany(usize),
}

// The edition that a word names.
fn edition_named(word: &[u8]) -> Option<Edition>
    ensures { result ≡ edition_named word.now }
{
    let [digit] = word else {
        return None;
    };
    if *digit == b'1' {
        Some(Edition::First)
    } else if *digit == b'2' {
        Some(Edition::Second)
    } else {
        None
    }
}

// How many bytes the ledger takes that some bytes begin with: its length is in the first two.
fn size_in_front(bytes: &[u8]) -> usize
    ensures is { result ≡ size_in_front bytes.now }
    ensures range { (2 ≤ result) × (result ≤ 65537) }
{
    let known = bytes.len().min(2);
    2 + get_be(bytes, 0, known) as usize
}

// Reads until the buffer is full or the input ends, and tells how many bytes came. A read that a signal interrupts is
// tried again.
fn read_full<R: Read>(input: &mut R, buffer: &mut [u8]) -> io::Result<usize>
    ensures filled { Filled (R.remaining input.old) (R.remaining input.new) buffer.new result }
    ensures size { length buffer.new ≡ length buffer.old }
{
    let mut done = 0;
    for _ in 0..u64::MAX {
        if done >= buffer.len() {
            return Ok(done);
        }
        match input.read(&mut buffer[done..]) {
            Ok(0) => return Ok(done),
            Ok(n) => done += n,
            Err(e) => {
                if e.kind() != ErrorKind::Interrupted {
                    return Err(e);
                }
            }
        }
    }
    Err(ErrorKind::TimedOut.into())
}

// The next ledger, at the buffer's start, and how many bytes it has: fewer than its length says where the input ends
// within it, and none where the input had ended.
fn read_ledger<R: Read>(input: &mut R, ledger: &mut [u8; LEDGER_MOST]) -> io::Result<usize>
    ensures { Fetched (R.remaining input.old) (R.remaining input.new) ledger.new result }
{
    let head = read_full(input, &mut ledger[..2])?;
    if head < 2 {
        return Ok(head);
    }
    let size = size_in_front(&ledger[..2]);
    let rest = read_full(input, &mut ledger[2..size])?;
    Ok(2 + rest)
}

// Writes a ledger in the edition that is wanted, or reports at which place it is refused and why; whether it was
// converted.
fn convert_one<O: Write, E: Write>(
    edition: Edition,
    place: usize,
    ledger: &[u8],
    output: &mut O,
    report: &mut E,
) -> io::Result<bool>
    ensures { Sent edition place ledger.now
        (O.contents output.old) (O.contents output.new) (E.contents report.old) (E.contents report.new) result }
{
    let mut out = [0u8; 8198];
    match ledger_convert(edition, ledger, &mut out) {
        Ok(converted) => {
            output.write_all(&out[..converted.length])?;
            Ok(true)
        }
        Err(f) => {
            let mut line = [0u8; 65];
            let size = refusal_line(f.fault.number(), f.need, f.have, &mut line).unwrap_or(0);
            let mut text = [0u8; 86];
            let end = placed_line(place, &line[..size], &mut text).unwrap_or(0);
            report.write_all(&text[..end])?;
            Ok(false)
        }
    }
}

// Converts or reports each ledger of the input; whether all were converted.
fn convert_all<R: Read, O: Write, E: Write>(
    edition: Edition,
    input: &mut R,
    output: &mut O,
    report: &mut E,
) -> Result<bool, Stop>
    ensures { Ran edition (R.remaining input.old) (R.remaining input.new)
        (O.contents output.old) (O.contents output.new) (E.contents report.old) (E.contents report.new) result }
{
    let mut ledger = [0u8; LEDGER_MOST];
    let mut place = 0;
    let mut all = true;
    for _ in 0..LEDGERS_MOST {
        let Ok(size) = read_ledger(input, &mut ledger) else {
            return Err(Stop::Input(place));
        };
        if size == 0 {
            return Ok(all);
        }
        let Ok(converted) = convert_one(edition, place, &ledger[..size], output, report) else {
            return Err(Stop::Output);
        };
        all = all && converted;
        if size < size_in_front(&ledger[..size]) {
            return Ok(all);
        }
        place += size;
    }
    Err(Stop::TooMany(place))
}

// The edition that the program's one argument names.
fn wanted(rt: &HostRuntime) -> io::Result<Option<Edition>> {
    let mut words = env::args(rt)?;
    words.next();
    let (Some(word), None) = (words.next(), words.next()) else {
        return Ok(None);
    };
    Ok(edition_named(word.as_bytes()))
}

// Converts the standard input. What is still held back is written at the end, also where the run ended early.
fn run(rt: &HostRuntime, edition: Edition) -> io::Result<Result<bool, Stop>> {
    let mut input = BufReader::with_capacity(rt.alloc(), LEDGER_MOST, rt.stdin())?;
    let mut output = BufWriter::with_capacity(rt.alloc(), LEDGER_MOST, rt.stdout())?;
    let mut result = convert_all(edition, &mut input, &mut output, &mut rt.stderr());
    if output.flush().is_err() {
        // What could not be written is not tried again.
        let _ = output.into_parts();
        result = Err(Stop::Output);
    }
    Ok(result)
}

// Tells on standard error why the run ended early. A line that can't be written is passed over: the status tells it.
fn tell(rt: &HostRuntime, place: usize, words: &[u8]) {
    let mut text = [0u8; 64];
    if let Some(size) = placed_line(place, words, &mut text) {
        let _ = rt.stderr().write_all(&text[..size]);
    }
}

fn main(rt: HostRuntime) -> ExitCode {
    let Ok(edition) = wanted(&rt) else {
        let _ = rt
            .stderr()
            .write_all(b"ledger_convert: the arguments could not be read\n");
        return ExitCode::FAILURE;
    };
    let Some(edition) = edition else {
        let _ = rt.stderr().write_all(b"usage: ledger_convert 1|2\n");
        return ExitCode::FAILURE;
    };
    match run(&rt, edition) {
        Ok(Ok(true)) => return ExitCode::SUCCESS,
        Ok(Ok(false)) => {}
        Ok(Err(Stop::Input(place))) => tell(&rt, place, b"input failed\n"),
        Ok(Err(Stop::TooMany(place))) => tell(&rt, place, b"too many ledgers\n"),
        Ok(Err(Stop::Output)) => {
            let _ = rt.stderr().write_all(b"output failed\n");
        }
        Err(_) => {
            let _ = rt.stderr().write_all(b"ledger_convert: out of memory\n");
        }
    }
    ExitCode::FAILURE
}
