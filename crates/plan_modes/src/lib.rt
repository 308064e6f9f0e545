// The modes of a beamhopping time plan, table id 3.
#![tactic(auto)]

ghost use Rattle.std.specs.Prelude.{◌≡◌, ℕ, ◌%◌};
ghost use Rattle.bits.specs.Read.{Room};
ghost use Rattle.plan_modes.specs.Modes.{plan_mode, plan_mode_number, dwell_at, bitmap_at, grid_at, raw_at, mode_at};

use bit_reader::enough;
use bits::Cursor;
use clocks::clock_within;
use format::{Fault, Found, Refusal};
use parts::{Part, slots_on};

#[derive(Clone, Copy)]
pub enum TimePlanMode {
    DwellOnTime,
    Bitmap,
    GridRevisitSleep,
    Reserved(u8),
}

// What a mode has of its own. The Rust's lists are parts of the body; slots_on, how many slots are on, is added.
#[derive(Clone, Copy)]
pub enum BeamhoppingMode {
    Mode0 {
        dwell_duration_base: u64,
        dwell_duration_ext: u16,
        on_time_base: u64,
        on_time_ext: u16,
        dwell_duration_reserved_zero_future_use: u8,
        on_time_reserved_zero_future_use: u8,
    },
    Mode1 {
        bit_map_size: u16,
        current_slot: u16,
        slot_transmission_on: Part,
        slots_on: u32,
        reserved_zero_future_use_size: u8,
        reserved_zero_future_use_slot: u8,
    },
    Mode2 {
        grid_size_base: u64,
        grid_size_ext: u16,
        revisit_duration_base: u64,
        revisit_duration_ext: u16,
        sleep_time_base: u64,
        sleep_time_ext: u16,
        sleep_duration_base: u64,
        sleep_duration_ext: u16,
        grid_size_reserved_zero_future_use: u8,
        revisit_duration_reserved_zero_future_use: u8,
        sleep_time_reserved_zero_future_use: u8,
        sleep_duration_reserved_zero_future_use: u8,
    },
    Reserved(Part),
}

impl From<u8> for TimePlanMode {
    // The mode of a number, of which the last two bits count.
    ghost from_gives = { λ v m. m ≡ plan_mode v };

    #[tactic(auto, unfolding(crate::specs::Modes::plan_mode))]
    fn from(v: u8) -> Self {
        match v % 4 {
            0 => TimePlanMode::DwellOnTime,
            1 => TimePlanMode::Bitmap,
            2 => TimePlanMode::GridRevisitSleep,
            other => TimePlanMode::Reserved(other),
        }
    }
}

impl From<TimePlanMode> for u8 {
    // The number of a mode.
    ghost from_gives = { λ m v. v ≡ plan_mode_number m };

    #[tactic(auto, unfolding(crate::specs::Modes::plan_mode_number))]
    fn from(kind: TimePlanMode) -> u8 {
        match kind {
            TimePlanMode::DwellOnTime => 0,
            TimePlanMode::Bitmap => 1,
            TimePlanMode::GridRevisitSleep => 2,
            TimePlanMode::Reserved(v) => v,
        }
    }
}

// The two conversions under the ported crate's names.
impl TimePlanMode {
    pub fn from_u8(v: u8) -> Self
        ensures { result ≡ plan_mode v }
    {
        TimePlanMode::from(v)
    }

    pub fn to_u8(self) -> u8
        ensures { result ≡ plan_mode_number self }
    {
        u8::from(self)
    }
}

// Mode 0.
fn read_dwell(from: Cursor<'_>) -> Result<Found<BeamhoppingMode>, Refusal>
    ensures { (e : ℕ) → result ≡ dwell_at from.entry.body.now e from.entry.at }
{
    enough(from, Fault::DwellCut, 96)?;
    let dwell = clock_within(from)?;
    let on = clock_within(from.to(dwell.next))?;
    Ok(Found {
        value: BeamhoppingMode::Mode0 {
            dwell_duration_base: dwell.value.base,
            dwell_duration_ext: dwell.value.ext,
            on_time_base: on.value.base,
            on_time_ext: on.value.ext,
            dwell_duration_reserved_zero_future_use: dwell.value.reserved,
            on_time_reserved_zero_future_use: on.value.reserved,
        },
        next: on.next,
    })
}

// Mode 1 where its header is there. Its slots are whole bytes, so that it starts one (`at_value`; see `Cursor`).
fn bitmap_at(from: Cursor<'_>) -> Result<Found<BeamhoppingMode>, Refusal>
    requires room { Room from.body.now from.at 32 }
    requires at_value { from.at % 8 ≡ 0 }
    ensures { (e : ℕ) → result ≡ bitmap_at from.entry.body.now e from.entry.at }
{
    let size = from.value(1, 15) as usize;
    let next = from.at + 32;
    enough(from.to(next), Fault::SlotsCut, size)?;
    let start = next as usize / 8;
    let length = (size + 7) / 8;
    Ok(Found {
        value: BeamhoppingMode::Mode1 {
            bit_map_size: size as u16,
            current_slot: from.value(17, 15) as u16,
            slot_transmission_on: Part {
                start,
                length,
                count: size,
            },
            slots_on: slots_on(from.body, start, size),
            reserved_zero_future_use_size: from.value(0, 1) as u8,
            reserved_zero_future_use_slot: from.value(16, 1) as u8,
        },
        next: (next as usize + 8 * length) as u16,
    })
}

// Mode 1, from a byte on.
fn read_bitmap(from: Cursor<'_>) -> Result<Found<BeamhoppingMode>, Refusal>
    requires at_value { from.at % 8 ≡ 0 }
    ensures { (e : ℕ) → result ≡ bitmap_at from.entry.body.now e from.entry.at }
{
    enough(from, Fault::BitmapHeaderCut, 32)?;
    bitmap_at(from)
}

// Mode 2.
fn read_grid(from: Cursor<'_>) -> Result<Found<BeamhoppingMode>, Refusal>
    ensures { (e : ℕ) → result ≡ grid_at from.entry.body.now e from.entry.at }
{
    enough(from, Fault::GridCut, 192)?;
    let grid = clock_within(from)?;
    let visit = clock_within(from.to(grid.next))?;
    let sleep = clock_within(from.to(visit.next))?;
    let span = clock_within(from.to(sleep.next))?;
    Ok(Found {
        value: BeamhoppingMode::Mode2 {
            grid_size_base: grid.value.base,
            grid_size_ext: grid.value.ext,
            revisit_duration_base: visit.value.base,
            revisit_duration_ext: visit.value.ext,
            sleep_time_base: sleep.value.base,
            sleep_time_ext: sleep.value.ext,
            sleep_duration_base: span.value.base,
            sleep_duration_ext: span.value.ext,
            grid_size_reserved_zero_future_use: grid.value.reserved,
            revisit_duration_reserved_zero_future_use: visit.value.reserved,
            sleep_time_reserved_zero_future_use: sleep.value.reserved,
            sleep_duration_reserved_zero_future_use: span.value.reserved,
        },
        next: span.next,
    })
}

// Mode 3: the bytes up to the plan's end, or none where that is past the data.
fn read_raw(from: Cursor<'_>, end: u16) -> Result<Found<BeamhoppingMode>, Refusal>
    ensures { result ≡ raw_at from.entry.body.now end from.entry.at }
{
    let start = from.at as usize / 8;
    if 8 * from.body.len() < end as usize || end <= from.at {
        return Ok(Found {
            value: BeamhoppingMode::Reserved(Part {
                start,
                length: 0,
                count: 0,
            }),
            next: from.at,
        });
    }
    let length = (end - from.at) as usize / 8;
    Ok(Found {
        value: BeamhoppingMode::Reserved(Part {
            start,
            length,
            count: length,
        }),
        next: end,
    })
}

// The mode of a number, from a byte on, in a plan that ends at a place. By the number and not by its `TimePlanMode`, as
// the table's description goes by it: a `Reserved` may hold any.
pub fn read_mode(from: Cursor<'_>, end: u16, mode: u64) -> Result<Found<BeamhoppingMode>, Refusal>
    requires at_value { from.at % 8 ≡ 0 }
    ensures { result ≡ mode_at from.entry.body.now end mode from.entry.at }
{
    match mode {
        0 => read_dwell(from),
        1 => read_bitmap(from),
        2 => read_grid(from),
        _ => read_raw(from, end),
    }
}
