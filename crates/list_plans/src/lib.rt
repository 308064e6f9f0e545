// Table id 3: a beamhopping time plan.
#![tactic(auto)]

use clocks::Clock;
use list_text::{Hexadecimal, Listing, PathText, Slots, bytes_of};
use parts::Part;
use plan::BeamhoppingPlan;
use plan_modes::BeamhoppingMode;
use std::io;
use std::io::Write;

pub fn show<W: Write>(
    out: &mut Listing<'_, W, impl PathText>,
    body: &[u8],
    p: BeamhoppingPlan,
) -> io::Result<()> {
    let start = Clock {
        base: p.time_of_application_base,
        reserved: p.time_of_application_reserved_zero_future_use,
        ext: p.time_of_application_ext,
    };
    let cycle = Clock {
        base: p.cycle_duration_base,
        reserved: p.cycle_duration_reserved_zero_future_use,
        ext: p.cycle_duration_ext,
    };
    let id = p.beamhopping_time_plan_id;
    out.field("beamhopping_time_plan_id", id)?;
    out.field("reserved_zero_future_use_4", p.reserved_zero_future_use_4)?;
    out.field("plan_length", p.plan_length)?;
    let kept = p.reserved_zero_future_use_mode;
    out.field("reserved_zero_future_use_mode", kept)?;
    out.field("time_plan_mode", p.time_plan_mode.to_u8())?;
    show_clock(out, "time_of_application_", start)?;
    show_clock(out, "cycle_duration_", cycle)?;
    show_mode(&mut out.part("mode")?, body, p.mode)
}

// A clock whose reserved bits have its stem too.
fn show_clock<W: Write>(
    out: &mut Listing<'_, W, impl PathText>,
    stem: &str,
    time: Clock,
) -> io::Result<()> {
    out.clock(stem, stem, time)
}

fn clock_of(base: u64, reserved: u8, ext: u16) -> Clock {
    Clock {
        base,
        reserved,
        ext,
    }
}

// What a mode has of its own. The functions for modes 0 to 2 each take their own variant apart, and write nothing of
// another: one `match` of all would be longer than a function may be here.
fn show_mode<W: Write>(
    out: &mut Listing<'_, W, impl PathText>,
    body: &[u8],
    mode: BeamhoppingMode,
) -> io::Result<()> {
    if let BeamhoppingMode::Reserved(part) = mode {
        let mut out = out.part("Reserved")?;
        out.list(part)?;
        return out.value(Hexadecimal(bytes_of(body, part)));
    }
    show_dwell(out, mode)?;
    show_bitmap(out, body, mode)?;
    show_grid(out, mode)
}

fn show_dwell<W: Write>(
    out: &mut Listing<'_, W, impl PathText>,
    mode: BeamhoppingMode,
) -> io::Result<()> {
    let BeamhoppingMode::Mode0 {
        dwell_duration_base: base,
        dwell_duration_ext: ext,
        on_time_base,
        on_time_ext,
        dwell_duration_reserved_zero_future_use: reserved,
        on_time_reserved_zero_future_use: on_reserved,
    } = mode
    else {
        return Ok(());
    };
    let dwell = clock_of(base, reserved, ext);
    let on = clock_of(on_time_base, on_reserved, on_time_ext);
    show_clock(out, "dwell_duration_", dwell)?;
    show_clock(out, "on_time_", on)
}

fn show_bitmap<W: Write>(
    out: &mut Listing<'_, W, impl PathText>,
    body: &[u8],
    mode: BeamhoppingMode,
) -> io::Result<()> {
    let BeamhoppingMode::Mode1 {
        bit_map_size,
        current_slot,
        slot_transmission_on: part,
        slots_on,
        reserved_zero_future_use_size: kept_size,
        reserved_zero_future_use_slot: kept_slot,
    } = mode
    else {
        return Ok(());
    };
    out.field("reserved_zero_future_use_size", kept_size)?;
    out.field("bit_map_size", bit_map_size)?;
    out.field("reserved_zero_future_use_slot", kept_slot)?;
    out.field("current_slot", current_slot)?;
    show_slots(&mut out.part("slot_transmission_on")?, body, part)?;
    out.field("slots_on", slots_on)
}

fn show_slots<W: Write>(
    out: &mut Listing<'_, W, impl PathText>,
    body: &[u8],
    part: Part,
) -> io::Result<()> {
    let bytes = bytes_of(body, part);
    let count = part.count;
    out.place(part)?;
    out.value(Slots { bytes, count })
}

fn show_grid<W: Write>(
    out: &mut Listing<'_, W, impl PathText>,
    mode: BeamhoppingMode,
) -> io::Result<()> {
    let BeamhoppingMode::Mode2 {
        grid_size_base,
        grid_size_ext,
        revisit_duration_base,
        revisit_duration_ext,
        sleep_time_base,
        sleep_time_ext,
        sleep_duration_base,
        sleep_duration_ext,
        grid_size_reserved_zero_future_use: grid_kept,
        revisit_duration_reserved_zero_future_use: revisit_kept,
        sleep_time_reserved_zero_future_use: time_kept,
        sleep_duration_reserved_zero_future_use: sleep_kept,
    } = mode
    else {
        return Ok(());
    };
    let grid = clock_of(grid_size_base, grid_kept, grid_size_ext);
    let revisit = clock_of(revisit_duration_base, revisit_kept, revisit_duration_ext);
    let time = clock_of(sleep_time_base, time_kept, sleep_time_ext);
    let duration = clock_of(sleep_duration_base, sleep_kept, sleep_duration_ext);
    show_clock(out, "grid_size_", grid)?;
    show_clock(out, "revisit_duration_", revisit)?;
    show_clock(out, "sleep_time_", time)?;
    show_clock(out, "sleep_duration_", duration)
}
