// A list of a cell fragment's systems; and the elements of its three lists, by their index.
#![tactic(auto)]

ghost use Rattle.std.specs.Prelude.{◌≡◌, ◌≤◌};
ghost use Rattle.systems.specs.Systems.{systems_at, place_of, system_at, id_at, new_at, obsolescent_at};

use bits::{Cursor, value_at};
use clocks::{Clock, clock_within};
use format::{Fault, Found, Refusal};
use parts::{Part, read_part};

#[derive(Clone, Copy)]
pub struct NewDeliverySystem {
    pub new_delivery_system_id: u32,
    pub time_of_application_base: u64,
    pub time_of_application_ext: u16,
    pub reserved_zero_future_use: u8,
}

#[derive(Clone, Copy)]
pub struct ObsolescentDeliverySystem {
    pub obsolescent_delivery_system_id: u32,
    pub time_of_obsolescence_base: u64,
    pub time_of_obsolescence_ext: u16,
    pub reserved_zero_future_use: u8,
}

// What a new and an obsolescent delivery system have alike: an id, and a clock behind it.
#[derive(Clone, Copy)]
struct System {
    id: u32,
    time: Clock,
}

// A count of 10 bits, and behind it so many systems: refused with a fault of the caller's where they pass the end,
// and then by the first of their clocks that is refused. By the index, which is the place too.
pub fn read_systems(from: Cursor<'_>, fault: Fault) -> Result<Found<Part>, Refusal>
    ensures { result ≡ systems_at from.entry.body.now fault from.entry.at }
{
    let list = read_part(from, fault, 80)?;
    for i in 0..list.value.count {
        let at = (from.at as usize + 10 + 80 * i + 32) as u16;
        clock_within(from.to(at))?;
    }
    Ok(list)
}

// The bit place of the element at an index of a list of elements of size bytes; none where a body of len bytes, 4,096
// at most, does not hold it.
fn place_at(len: usize, part: Part, size: usize, index: usize) -> Option<u16>
    requires { (1 ≤ size) × (size ≤ 10) }
    ensures { result ≡ place_of len part size index }
{
    if 4096 < len || part.count <= index || len < part.start || len <= index {
        return None;
    }
    let start = part.start + size * index;
    if len < start + size {
        return None;
    }
    Some((8 * start) as u16)
}

// The delivery system id at an index.
pub fn delivery_system_id_at(body: &[u8], part: Part, index: usize) -> Option<u32>
    ensures { result ≡ id_at body.now part index }
{
    let at = place_at(body.len(), part, 4, index)?;
    Some(value_at(body, at, 32) as u32)
}

// The system at an index, new or obsolescent; none also where its clock is refused, as it may be in a part that was not
// read.
fn system_at(body: &[u8], part: Part, index: usize) -> Option<System>
    ensures { result ≡ system_at body.now part index }
{
    let at = place_at(body.len(), part, 10, index)?;
    let time = clock_within(Cursor { body, at: at + 32 }).ok()?;
    Some(System {
        id: value_at(body, at, 32) as u32,
        time: time.value,
    })
}

// The new delivery system at an index.
pub fn new_delivery_system_at(body: &[u8], part: Part, index: usize) -> Option<NewDeliverySystem>
    ensures { result ≡ new_at body.now part index }
{
    let system = system_at(body, part, index)?;
    Some(NewDeliverySystem {
        new_delivery_system_id: system.id,
        time_of_application_base: system.time.base,
        time_of_application_ext: system.time.ext,
        reserved_zero_future_use: system.time.reserved,
    })
}

// The obsolescent delivery system at an index.
pub fn obsolescent_delivery_system_at(
    body: &[u8],
    part: Part,
    index: usize,
) -> Option<ObsolescentDeliverySystem>
    ensures { result ≡ obsolescent_at body.now part index }
{
    let system = system_at(body, part, index)?;
    Some(ObsolescentDeliverySystem {
        obsolescent_delivery_system_id: system.id,
        time_of_obsolescence_base: system.time.base,
        time_of_obsolescence_ext: system.time.ext,
        reserved_zero_future_use: system.time.reserved,
    })
}
