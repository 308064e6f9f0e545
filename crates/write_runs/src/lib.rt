// Fields of a body, gone through by their marks and written as a ledger on the way. Where the buffer is too short it
// may keep anything, and the answer is the same: so the size is asked for with an empty one.
#![tactic(auto)]

ghost use Rattle.std.specs.Prelude.{◌≡◌, List, [], ◌∷◌, ℕ, ◌-◌, ◌*◌, ◌^◌, ◌≤◌, ◌<◌, T};
ghost use Rattle.format.specs.Digits.{digits, value_at};
ghost use Rattle.format.specs.Refusals.{refuse};
ghost use Rattle.format.specs.Syntax.{Name, Syntax, need};
ghost use Rattle.format.specs.Tables.{times};
ghost use Rattle.format.specs.declared.Fault.TheVariants.{ExtensionTooLarge};
ghost use Rattle.bits.specs.Read.{Room};
ghost use Rattle.bit_reader.specs.Readers.{enough_at};
ghost use Rattle.runs.specs.Lines.{width_of, last_width, size_for, mark_ok, marks_ok, line, run, run_of};
ghost use Rattle.runs.specs.Stored.{stored};
ghost use Rattle.runs.specs.Ends.{end_last};
ghost use Rattle.write_runs.specs.Placed.{Placed};
ghost use Rattle.write_runs.specs.Steps.{last_of};
ghost use Rattle.write_runs.specs.Ended.{Ended, Over};
ghost use Rattle.write_runs.specs.Went.{Around, RanFrom, Moved};

use bits::{Cursor, put_be, value_at};
use format::{Fault, Refusal};
use runs::{RunEnd, shown_of, size_for, size_of, width_of};
pub use step::Step;

mod step;

// Stores the k low bytes of v at a place, where there is room for all of them; a ledger's fields have 1, 2, 4 or 8.
// Inlined for speed, so that only these sizes are tested.
#[inline(always)]
pub fn put(out: &mut [u8], place: usize, k: usize, v: u64)
    requires { (place ≤ 65536) × (k ≤ 8) }
    ensures { out.new ≡ stored out.old place (digits 256 k v) }
{
    if out.len() < place + k {
        return;
    }
    put_be(out, place, k, v);
}

// The refusal of a clock's extension above 299.
fn damaged(ext: u64) -> Refusal
    ensures { result ≡ refuse ExtensionTooLarge ext 299 }
{
    Refusal {
        fault: Fault::ExtensionTooLarge,
        need: ext as usize,
        have: 299,
    }
}

// The bytes in a ledger of a field that is there, as `size_for` has them; its number is read only where it may matter.
// By plain places, as `pass_run`, which calls it.
fn size_at(body: &[u8], at: u16, mark: u8) -> Option<usize>
    requires room { Room body.now at (width_of mark) }
    requires valid { T (mark_ok mark) }
    ensures { result ≡ size_for mark (value_at body.now at (width_of mark)) }
{
    let plain = mark < 128;
    if plain {
        return Some(size_of(mark));
    }
    size_for(mark, value_at(body, at, width_of(mark)))
}

// One field. This and the three below go by plain places, and answer a run's end: where they took a step and handed it
// back, writing took up to 7 % more instructions, and up to 17 % more time.
fn write_line(
    body: &[u8],
    at: u16,
    mark: u8,
    out: &mut [u8],
    place: usize,
) -> Result<RunEnd<u16>, Refusal>
    requires placed { Placed body.now at place }
    requires valid { T (mark_ok mark) }
    ensures ran { (e : Around) (nm : Name) (k : ℕ → Syntax)
        → Ended body.now e (line nm mark k) at place out.old k out.new result }
    ensures result_bound { end_last result < 2 ^ width_of mark }
    ensures moved { Over at place (mark ∷ []) result }
{
    let have = 8 * body.len();
    let width = width_of(mark);
    let need = at as usize + width;
    if have < need {
        return Err(Refusal {
            fault: Fault::FieldCut,
            need,
            have,
        });
    }
    let v = value_at(body, at, width);
    let Some(size) = size_for(mark, v) else {
        return Err(damaged(v));
    };
    put(out, place, size, shown_of(mark, v));
    Ok(RunEnd {
        at: need as u16,
        place: place + size,
        last: v,
    })
}

// A run of fields that are not stored: only the last one's number is taken, and those that are tested.
fn pass_run(body: &[u8], at: u16, marks: &[u8], place: usize) -> Result<RunEnd<u16>, Refusal>
    requires placed { Placed body.now at place }
    requires valid { T (marks_ok marks.now) }
    ensures ran { (e : Around) (nms : List Name) (k : ℕ → Syntax)
        → Ended body.now e (run nms 0 marks.now k) at place [] k [] result }
    ensures result_bound { end_last result < 2 ^ last_width marks.now }
    ensures moved { Over at place marks.now result }
{
    let have = 8 * body.len();
    let mut here = at;
    let mut there = place;
    let mut width = 0;
    for &mark in marks {
        width = width_of(mark);
        let need = here as usize + width;
        if have < need {
            return Err(Refusal {
                fault: Fault::FieldCut,
                need,
                have,
            });
        }
        let Some(size) = size_at(body, here, mark) else {
            return Err(damaged(value_at(body, here, width)));
        };
        here = need as u16;
        there += size;
    }
    Ok(RunEnd {
        at: here,
        place: there,
        last: value_at(body, (here as usize - width) as u16, width),
    })
}

// A run of fields that are stored one by one.
fn store_run(
    body: &[u8],
    at: u16,
    marks: &[u8],
    out: &mut [u8],
    place: usize,
) -> Result<RunEnd<u16>, Refusal>
    requires placed { Placed body.now at place }
    requires valid { T (marks_ok marks.now) }
    ensures ran { (e : Around) (nms : List Name) (k : ℕ → Syntax)
        → Ended body.now e (run nms 0 marks.now k) at place out.old k out.new result }
    ensures result_bound { end_last result < 2 ^ last_width marks.now }
    ensures moved { Over at place marks.now result }
{
    let mut end = RunEnd { at, place, last: 0 };
    for &mark in marks {
        end = write_line(body, end.at, mark, out, end.place)?;
    }
    Ok(end)
}

// A run of fields, stored where there is a buffer.
fn go_over(
    body: &[u8],
    at: u16,
    marks: &[u8],
    out: &mut [u8],
    place: usize,
) -> Result<RunEnd<u16>, Refusal>
    requires placed { Placed body.now at place }
    requires valid { T (marks_ok marks.now) }
    ensures ran { (e : Around) (nms : List Name) (k : ℕ → Syntax)
        → Ended body.now e (run nms 0 marks.now k) at place out.old k out.new result }
    ensures result_bound { end_last result < 2 ^ last_width marks.now }
    ensures moved { Over at place marks.now result }
{
    if out.len() == 0 {
        return pass_run(body, at, marks, place);
    }
    store_run(body, at, marks, out, place)
}

// A run of fields. Inlined for speed, so that what goes along stays in registers.
#[inline(always)]
pub fn write_run<'a>(from: Step<'a>, marks: &[u8], out: &mut [u8]) -> Result<Step<'a>, Refusal>
    requires valid { T (marks_ok marks.now) }
    ensures ran { (e : Around) (nms : List Name) (k : ℕ → Syntax)
        → RanFrom from.entry e (run nms 0 marks.now k) out.old k out.new result }
    ensures result_bound { last_of result < 2 ^ last_width marks.now }
    ensures moved { Moved from.entry.at from.entry.place marks.now result }
{
    let run = go_over(from.body, from.at, marks, out, from.place)?;
    Ok(Step {
        body: from.body,
        place: run.place,
        at: run.at,
        last: run.last,
    })
}

// Tests that so many bits are there from a step's place on: refused with a fault of the caller's where they pass the
// end. Inlined for speed.
#[inline(always)]
pub fn enough(from: Step<'_>, fault: Fault, bits: usize) -> Result<(), Refusal>
    ensures { result ≡ enough_at from.entry.body.now from.entry.at fault bits }
{
    let cursor = Cursor {
        body: from.body,
        at: from.at,
    };
    bit_reader::enough(cursor, fault, bits)
}

// A run of fields, for which so many bits must remain.
pub fn write_needed<'a>(
    from: Step<'a>,
    fault: Fault,
    bits: usize,
    marks: &[u8],
    out: &mut [u8],
) -> Result<Step<'a>, Refusal>
    requires valid { T (marks_ok marks.now) }
    ensures ran { (e : Around) (nms : List Name) (k : ℕ → Syntax)
        → RanFrom from.entry e (need fault bits (run nms 0 marks.now k)) out.old k out.new result }
    ensures result_bound { last_of result < 2 ^ last_width marks.now }
    ensures moved { Moved from.entry.at from.entry.place marks.now result }
{
    enough(from, fault, bits)?;
    write_run(from, marks, out)
}

// The same run so many times.
fn write_rounds<'a>(
    from: Step<'a>,
    marks: &[u8],
    count: usize,
    out: &mut [u8],
) -> Result<Step<'a>, Refusal>
    requires valid { T (marks_ok marks.now) }
    ensures ran { (e : Around) (nms : List Name) (s : Syntax)
        → RanFrom from.entry e (times count (run_of nms marks.now) s) out.old (λ _. s) out.new result }
{
    let mut step = from;
    for _ in 0..count {
        step = write_run(step, marks, out)?;
    }
    Ok(step)
}

// The same run count times, for which so many bits each must remain.
pub fn write_counted<'a>(
    from: Step<'a>,
    fault: Fault,
    bits: usize,
    marks: &[u8],
    count: u64,
    out: &mut [u8],
) -> Result<Step<'a>, Refusal>
    requires valid { T (marks_ok marks.now) }
    requires count_bound { (count < 65536) × (bits < 65536) }
    ensures ran { (e : Around) (nms : List Name) (s : Syntax)
        → RanFrom from.entry e (need fault (count * bits) (times count (run_of nms marks.now) s))
        out.old (λ _. s) out.new result }
{
    let n = count as usize;
    let need = n * bits;
    enough(from, fault, need)?;
    write_rounds(from, marks, n, out)
}
