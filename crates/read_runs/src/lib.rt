// Fields of a ledger, gone through by their marks and laid as the bits of a body on the way.
// Where the buffer is too short it may keep anything, and the answer is the same: so the size is asked for with an
// empty one.
#![tactic(auto)]

ghost use Rattle.std.specs.Prelude.{◌≡◌, List, ℕ, ◌-◌, ◌/◌, ◌^◌, ◌≤◌, ◌<◌, T, length, get_or};
ghost use Rattle.format.specs.Digits.{digits, bits_of};
ghost use Rattle.format.specs.Refusals.{refuse};
ghost use Rattle.format.specs.Syntax.{Name, Syntax};
ghost use Rattle.format.specs.Tables.{times};
ghost use Rattle.runs.specs.Lines.{width_of, mark_ok, marks_ok, line, run, run_of};
ghost use Rattle.runs.specs.Ends.{end_last};
ghost use Rattle.runs.specs.Stored.{stored};
ghost use Rattle.read_runs.specs.Placed.{LedgerPlaced};
ghost use Rattle.read_runs.specs.Came.{Way, LaidFrom};
ghost use Rattle.read_runs.specs.Ended.{Ended};
ghost use Rattle.read_runs.specs.Steps.{last_of};

use bits::{get_be, write_u};
use format::{Fault, Refusal};
use runs::{RunEnd, low_of, shown_of, size_of, width_of};
pub use step::Step;

pub mod step;

// A refusal at a place of the ledger.
pub fn refused_at(fault: Fault, place: usize) -> Refusal
    ensures { result ≡ refuse fault place 0 }
{
    Refusal {
        fault,
        need: place,
        have: 0,
    }
}

// Stores the low bits of v at a bit place where there is room for them; else the buffer stays as it is.
pub fn lay(out: &mut [u8], at: usize, width: usize, v: u64)
    requires { (at ≤ 600000) × (1 ≤ width) × (width ≤ 64) }
    ensures { bits_of out.new ≡ stored (bits_of out.old) at (digits 2 width v) }
{
    if (at + width + 7) / 8 <= out.len() {
        write_u(out, at, width, v);
    }
}

// The byte that a bit place is in, within a buffer of n bytes, or the buffer's end.
pub fn byte_of(at: usize, n: usize) -> usize
    ensures { (result ≤ n) × (at / 8 ≤ n → result ≡ at / 8) }
{
    (at / 8).min(n)
}

// One field. This and `read_marks` go by plain places, and answer a run's end: where they took a step and handed it
// back, reading took up to 8 % more instructions, and up to 16 % more time.
fn read_line(
    ledger: &[u8],
    place: usize,
    mark: u8,
    out: &mut [u8],
    at: usize,
) -> Result<RunEnd<usize>, Refusal>
    requires placed { LedgerPlaced ledger.now place at }
    requires valid { T (mark_ok mark) }
    ensures laid { (way : Way) (nm : Name) (k : ℕ → Syntax)
        → Ended way ledger.now (line nm mark k) place at out.old k out.new result }
    ensures result_bound { end_last result < 2 ^ width_of mark }
{
    let size = size_of(mark);
    if ledger.len() - place < size {
        return Err(refused_at(Fault::LedgerMisfit, place));
    }
    let x = get_be(ledger, place, size);
    let v = low_of(mark, x);
    if shown_of(mark, v) != x {
        return Err(refused_at(Fault::ValueMisfit, place));
    }
    let width = width_of(mark);
    let end = RunEnd {
        place: place + size,
        at: at + width,
        last: v,
    };
    if out.len() == 0 {
        return Ok(end);
    }
    lay(out, at, width, v);
    Ok(end)
}

// A run of fields.
fn read_marks(
    ledger: &[u8],
    place: usize,
    marks: &[u8],
    out: &mut [u8],
    at: usize,
) -> Result<RunEnd<usize>, Refusal>
    requires placed { LedgerPlaced ledger.now place at }
    requires valid { T (marks_ok marks.now) }
    ensures laid { (way : Way) (nms : List Name) (k : ℕ → Syntax)
        → Ended way ledger.now (run nms 0 marks.now k) place at out.old k out.new result }
    ensures result_bound { end_last result < 2 ^ width_of (get_or marks.now (length marks.now - 1) 0) }
{
    let mut end = RunEnd { at, place, last: 0 };
    for &mark in marks {
        end = read_line(ledger, end.place, mark, out, end.at)?;
    }
    Ok(end)
}

// A run of fields. Inlined for speed, so that what goes along stays in registers.
#[inline(always)]
pub fn read_run<'a>(from: Step<'a>, marks: &[u8], out: &mut [u8]) -> Result<Step<'a>, Refusal>
    requires valid { T (marks_ok marks.now) }
    ensures laid { (way : Way) (nms : List Name) (k : ℕ → Syntax)
        → LaidFrom way from.entry (run nms 0 marks.now k) out.old k out.new result }
    ensures result_bound { last_of result < 2 ^ width_of (get_or marks.now (length marks.now - 1) 0) }
{
    let run = read_marks(from.ledger, from.place, marks, out, from.at)?;
    Ok(Step {
        ledger: from.ledger,
        place: run.place,
        at: run.at,
        last: run.last,
    })
}

// The same run count times.
pub fn read_counted<'a>(
    from: Step<'a>,
    marks: &[u8],
    count: u64,
    out: &mut [u8],
) -> Result<Step<'a>, Refusal>
    requires valid { T (marks_ok marks.now) }
    ensures { (way : Way) (nms : List Name) (s : Syntax)
        → LaidFrom way from.entry (times count (run_of nms marks.now) s) out.old (λ _. s) out.new result }
{
    let mut step = from;
    for _ in 0..count {
        step = read_run(step, marks, out)?;
    }
    Ok(step)
}
