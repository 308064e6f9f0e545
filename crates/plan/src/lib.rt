// Table id 3: beamhopping time plans.
#![tactic(auto)]

ghost use Rattle.std.specs.Prelude.{◌≡◌, ◌%◌};
ghost use Rattle.plan.specs.Plan.{plan_made, plan_closed, fields_at, plan_at};

use bits::{Cursor, read_u};
use clocks::{Clock, read_clock};
use format::{Fault, Found, Refusal};
use plan_modes::{BeamhoppingMode, TimePlanMode, read_mode};

// A plan as the Rust has it, and its length as it was read.
#[derive(Clone, Copy)]
pub struct BeamhoppingPlan {
    pub beamhopping_time_plan_id: u32,
    pub time_plan_mode: TimePlanMode,
    pub time_of_application_base: u64,
    pub time_of_application_ext: u16,
    pub cycle_duration_base: u64,
    pub cycle_duration_ext: u16,
    pub mode: BeamhoppingMode,
    pub reserved_zero_future_use_4: u8,
    pub reserved_zero_future_use_mode: u8,
    pub time_of_application_reserved_zero_future_use: u8,
    pub cycle_duration_reserved_zero_future_use: u8,
    pub plan_length: u16,
}

// The fields in front of those that plan_length counts.
#[derive(Clone, Copy)]
pub struct PlanHead {
    pub id: u32,
    pub reserved: u8,
    pub plan_length: u16,
}

// A plan made of its fields; its kind is the field's number, of which the Rust's type is made here.
fn plan_of(
    head: PlanHead,
    kept: u8,
    kind: u8,
    start: Clock,
    cycle: Clock,
    mode: BeamhoppingMode,
) -> BeamhoppingPlan
    ensures { result ≡ plan_made head kept kind start cycle mode }
{
    BeamhoppingPlan {
        beamhopping_time_plan_id: head.id,
        time_plan_mode: TimePlanMode::from(kind),
        time_of_application_base: start.base,
        time_of_application_ext: start.ext,
        cycle_duration_base: cycle.base,
        cycle_duration_ext: cycle.ext,
        mode,
        reserved_zero_future_use_4: head.reserved,
        reserved_zero_future_use_mode: kept,
        time_of_application_reserved_zero_future_use: start.reserved,
        cycle_duration_reserved_zero_future_use: cycle.reserved,
        plan_length: head.plan_length,
    }
}

// The fields that plan_length counts, in a plan that ends at a place. The data's end alone limits them here. They start
// a byte (`at_value`; see `Cursor`).
fn read_fields(
    from: Cursor<'_>,
    end: u16,
    head: PlanHead,
) -> Result<Found<BeamhoppingPlan>, Refusal>
    requires at_value { from.at % 8 ≡ 0 }
    ensures { result ≡ fields_at from.entry.body.now end head from.entry.at }
{
    let kept = read_u(from, 6)?;
    let kind = read_u(from.to(kept.next), 2)?;
    let start = read_clock(from.to(kind.next))?;
    let cycle = read_clock(from.to(start.next))?;
    let mode = read_mode(from.to(cycle.next), end, kind.value)?;
    let plan = plan_of(
        head,
        kept.value as u8,
        kind.value as u8,
        start.value,
        cycle.value,
        mode.value,
    );
    Ok(Found {
        value: plan,
        next: mode.next,
    })
}

// A plan and where its fields end. They must not pass its end, and the next plan starts there, or at the data's end
// where that comes first.
fn closed(
    found: Found<BeamhoppingPlan>,
    end: u16,
    all: u16,
) -> Result<Found<BeamhoppingPlan>, Refusal>
    ensures { result ≡ plan_closed found.value found.next end all }
{
    if end < found.next {
        return Err(Refusal {
            fault: Fault::PlanOverrun,
            need: (found.next - end) as usize,
            have: 0,
        });
    }
    Ok(Found {
        value: found.value,
        next: end.min(all),
    })
}

// The plan at a place, which starts a byte, and the place at which the next one starts.
pub fn read_plan(from: Cursor<'_>) -> Result<Found<BeamhoppingPlan>, Refusal>
    requires at_value { from.at % 8 ≡ 0 }
    ensures { result ≡ plan_at from.entry.body.now from.entry.at }
{
    let id = read_u(from, 32)?;
    let kept = read_u(from.to(id.next), 4)?;
    let bytes = read_u(from.to(kept.next), 12)?;
    let end = (bytes.next as usize + 8 * bytes.value as usize) as u16;
    let head = PlanHead {
        id: id.value as u32,
        reserved: kept.value as u8,
        plan_length: bytes.value as u16,
    };
    let found = read_fields(from.to(bytes.next), end, head)?;
    closed(found, end, (8 * from.body.len()) as u16)
}
