// The entries of tables 0, 1 and 2, written as a ledger: runs of marks, and the branches between them.
#![tactic(auto)]

ghost use Rattle.std.specs.Prelude.{◌<◌};
ghost use Rattle.format.specs.Syntax.{end};
ghost use Rattle.format.specs.Tables.{position, fragment, association};
ghost use Rattle.write_runs.specs.Went.{Around, RanFrom};
ghost use Rattle.write_tables.specs.Lists.{lists};

use format::{Fault, Refusal};
use runs::marks;
use write_runs::{Step, enough, write_counted, write_needed, write_run};

// Id 0: a satellite.
pub fn write_position<'a>(from: Step<'a>, out: &mut [u8]) -> Result<Step<'a>, Refusal>
    ensures { (e : Around) → RanFrom from.entry e position out.old (λ _. end) out.new result }
{
    let head = write_run(from, &marks::SATELLITE, out)?;
    if head.last == 0 {
        return write_needed(head, Fault::OrbitalCut, 24, &marks::ORBITAL, out);
    }
    write_needed(head, Fault::ElementsCut, 344, &marks::ELEMENTS, out)
}

// Id 1: the three lists, behind the first one's count.
fn write_lists<'a>(from: Step<'a>, count: u64, out: &mut [u8]) -> Result<Step<'a>, Refusal>
    requires count_bound { count < 1024 }
    ensures { (e : Around) → RanFrom from.entry e (lists count) out.old (λ _. end) out.new result }
{
    let ids = write_counted(from, Fault::IdsCut, 32, &marks::SYSTEM_ID, count, out)?;
    let new = write_run(ids, &marks::SYSTEM_COUNT, out)?;
    let systems = write_counted(new, Fault::NewSystemsCut, 80, &marks::SYSTEM, new.last, out)?;
    let old = write_run(systems, &marks::SYSTEM_COUNT, out)?;
    write_counted(
        old,
        Fault::ObsolescentSystemsCut,
        80,
        &marks::SYSTEM,
        old.last,
        out,
    )
}

// Id 1: a cell fragment.
pub fn write_fragment<'a>(from: Step<'a>, out: &mut [u8]) -> Result<Step<'a>, Refusal>
    ensures { (e : Around) → RanFrom from.entry e fragment out.old (λ _. end) out.new result }
{
    let cell = write_run(from, &marks::CELL, out)?;
    let flag = write_run(cell, &marks::LAST, out)?;
    if cell.last == 1 {
        let centre = write_needed(flag, Fault::CentreCut, 76, &marks::CENTRE, out)?;
        return write_lists(centre, centre.last, out);
    }
    let none = write_run(flag, &marks::NO_CENTRE, out)?;
    write_lists(none, none.last, out)
}

// Id 2: a time association.
pub fn write_association<'a>(from: Step<'a>, out: &mut [u8]) -> Result<Step<'a>, Refusal>
    ensures { (e : Around) → RanFrom from.entry e association out.old (λ _. end) out.new result }
{
    enough(from, Fault::BodyEmpty, 1)?;
    let kind = write_needed(from, Fault::AssociationCut, 152, &marks::TYPE, out)?;
    if kind.last == 1 {
        return write_run(kind, &marks::LEAP, out);
    }
    write_run(kind, &marks::NO_LEAP, out)
}
