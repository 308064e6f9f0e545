// Table id 1: a cell fragment, from the bits at a place.
#![tactic(auto)]

ghost use Rattle.std.specs.Prelude.{◌≡◌};
ghost use Rattle.bits.specs.Read.{Room};
ghost use Rattle.fragment.specs.Fragment.{fragment_at};
ghost use Rattle.fragment.specs.Inner.{lists_at, around_at, centre_of, with_at, without_at};

use bit_reader::enough;
use bits::{Cursor, read_u, signed_of};
use format::{Fault, Found, Refusal};
use parts::{Part, read_part};
use systems::read_systems;

#[derive(Clone, Copy)]
pub struct CellCentre {
    pub centre_latitude: i32,
    pub centre_longitude: i32,
    pub max_distance: u32,
    pub reserved_zero_future_use_4: u8,
    pub reserved_zero_future_use_5: u8,
    pub reserved_zero_future_use_6: u8,
}

#[derive(Clone, Copy)]
pub struct CellFragment {
    pub cell_fragment_id: u32,
    pub first_occurrence: bool,
    pub last_occurrence: bool,
    pub centre: Option<CellCentre>,
    pub delivery_system_ids: Part,
    pub new_delivery_systems: Part,
    pub obsolescent_delivery_systems: Part,
    pub reserved_zero_future_use_4: u8,
    pub reserved_zero_future_use_new: u8,
    pub reserved_zero_future_use_obsolescent: u8,
}

// What stands before a fragment's lists; the four reserved bits are 0 where there is a centre in their place.
#[derive(Clone, Copy)]
struct Front {
    id: u32,
    first: bool,
    last: bool,
    centre: Option<CellCentre>,
    reserved: u8,
}

// The three lists at a fragment's end, and the reserved bits before the second and the third.
#[derive(Clone, Copy)]
struct Lists {
    ids: Part,
    new: Part,
    obsolescent: Part,
    reserved_new: u8,
    reserved_obsolescent: u8,
}

// Reads the three lists; each is tested once, as a whole, behind its count, and then each system by its clock.
fn read_lists(from: Cursor<'_>) -> Result<Found<Lists>, Refusal>
    ensures { result ≡ lists_at from.entry.body.now from.entry.at }
{
    let ids = read_part(from, Fault::IdsCut, 32)?;
    let reserved_new = read_u(from.to(ids.next), 6)?;
    let new = read_systems(from.to(reserved_new.next), Fault::NewSystemsCut)?;
    let reserved_old = read_u(from.to(new.next), 6)?;
    let old = read_systems(from.to(reserved_old.next), Fault::ObsolescentSystemsCut)?;
    Ok(Found {
        value: Lists {
            ids: ids.value,
            new: new.value,
            obsolescent: old.value,
            reserved_new: reserved_new.value as u8,
            reserved_obsolescent: reserved_old.value as u8,
        },
        next: old.next,
    })
}

// The centre at a place where all of it is there.
fn centre_at(from: Cursor<'_>) -> CellCentre
    requires { Room from.body.now from.at 76 }
    ensures { result ≡ centre_of from.entry.body.now from.entry.at }
{
    let latitude = from.value(4, 18);
    let longitude = from.value(27, 19);
    CellCentre {
        centre_latitude: signed_of(latitude, 18) as i32,
        centre_longitude: signed_of(longitude, 19) as i32,
        max_distance: from.value(46, 24) as u32,
        reserved_zero_future_use_4: from.value(0, 4) as u8,
        reserved_zero_future_use_5: from.value(22, 5) as u8,
        reserved_zero_future_use_6: from.value(70, 6) as u8,
    }
}

// A fragment from what stands before its lists, with the lists at a place.
fn around_lists(from: Cursor<'_>, front: Front) -> Result<Found<CellFragment>, Refusal>
    ensures { result ≡ around_at from.entry.body.now front from.entry.at }
{
    let lists = read_lists(from)?;
    Ok(Found {
        value: CellFragment {
            cell_fragment_id: front.id,
            first_occurrence: front.first,
            last_occurrence: front.last,
            centre: front.centre,
            delivery_system_ids: lists.value.ids,
            new_delivery_systems: lists.value.new,
            obsolescent_delivery_systems: lists.value.obsolescent,
            reserved_zero_future_use_4: front.reserved,
            reserved_zero_future_use_new: lists.value.reserved_new,
            reserved_zero_future_use_obsolescent: lists.value.reserved_obsolescent,
        },
        next: lists.next,
    })
}

// The rest of a fragment with a centre, behind its id and flags: the centre is tested once, as a whole.
fn with_centre(from: Cursor<'_>, id: u32, last: bool) -> Result<Found<CellFragment>, Refusal>
    ensures { result ≡ with_at from.entry.body.now id last from.entry.at }
{
    enough(from, Fault::CentreCut, 76)?;
    let front = Front {
        id,
        first: true,
        last,
        centre: Some(centre_at(from)),
        reserved: 0,
    };
    around_lists(from.to(from.at + 76), front)
}

// And of one without a centre.
fn without_centre(from: Cursor<'_>, id: u32, last: bool) -> Result<Found<CellFragment>, Refusal>
    ensures { result ≡ without_at from.entry.body.now id last from.entry.at }
{
    let reserved = read_u(from, 4)?;
    let front = Front {
        id,
        first: false,
        last,
        centre: None,
        reserved: reserved.value as u8,
    };
    around_lists(from.to(reserved.next), front)
}

// Reads the fragment at a place.
pub fn read_fragment(from: Cursor<'_>) -> Result<Found<CellFragment>, Refusal>
    ensures { result ≡ fragment_at from.entry.body.now from.entry.at }
{
    let id = read_u(from, 32)?;
    let first = read_u(from.to(id.next), 1)?;
    let last = read_u(from.to(first.next), 1)?;
    let rest = from.to(last.next);
    if first.value == 1 {
        with_centre(rest, id.value as u32, last.value == 1)
    } else {
        without_centre(rest, id.value as u32, last.value == 1)
    }
}
