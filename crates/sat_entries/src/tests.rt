// Entries listed under a path of more than 64 bytes, in a text of the caller's own: the lines are those under a short
// path, but for the path.
use arrayvec::ArrayString;
use list_tables::{associations, fragments, satellites};
use list_text::{Listing, PathText};
use sat::{SatEntry, entry_at, header};
use std::alloc::Global;
use std::io::Write;
use std::process::Abort;
use std::test::Fail;
use std::{io, str};

// A path of 81 bytes.
const LONG: &str =
    "a_path_of_the_callers_own.that_is_longer_than_any_of_the_paths_of_a_body_can_be.x";

// Bodies of one entry. Between them they have each part that has a path of its own.
const SATELLITE: [u8; 47] = [
    0, 0, 0, 1, 255, 255, 255, 255, 255, 255, 255, 255, 255, 255, 255, 255, 255, 255, 255, 255,
    255, 255, 255, 255, 255, 255, 255, 255, 255, 255, 255, 255, 255, 255, 255, 255, 255, 255, 255,
    255, 255, 255, 255, 255, 255, 255, 255,
];

const FRAGMENT: [u8; 43] = [
    78, 157, 207, 144, 128, 194, 140, 3, 255, 255, 0, 0, 1, 0, 1, 0, 0, 0, 0, 0, 1, 169, 34, 185,
    164, 255, 255, 255, 255, 154, 1, 0, 1, 193, 203, 205, 77, 0, 0, 0, 0, 0, 85,
];

const ASSOCIATION: [u8; 19] = [
    16, 54, 132, 28, 196, 88, 0, 0, 0, 0, 0, 0, 0, 0, 1, 129, 164, 155, 120,
];

const PLAN: [u8; 25] = [
    0, 0, 0, 7, 0, 19, 1, 0, 0, 175, 200, 0, 0, 0, 0, 0, 0, 0, 0, 0, 10, 0, 3, 176, 64,
];

const RESERVED_PLAN: [u8; 20] = [
    0, 0, 0, 1, 128, 14, 203, 0, 0, 0, 0, 1, 43, 128, 0, 0, 0, 102, 0, 0,
];

const SATELLITE_V3: [u8; 177] = [
    15, 128, 1, 142, 128, 0, 0, 0, 231, 138, 78, 255, 255, 1, 255, 127, 255, 255, 255, 110, 1, 53,
    0, 104, 61, 107, 88, 43, 153, 255, 202, 155, 240, 233, 145, 0, 255, 128, 0, 0, 0, 0, 1, 255, 1,
    233, 255, 255, 255, 255, 164, 97, 124, 236, 167, 203, 92, 0, 129, 10, 117, 148, 51, 144, 95,
    230, 128, 0, 0, 0, 0, 0, 0, 0, 0, 0, 0, 0, 127, 255, 255, 255, 0, 0, 0, 0, 83, 212, 0, 14, 255,
    100, 37, 193, 242, 44, 182, 0, 0, 0, 245, 13, 84, 172, 81, 81, 175, 169, 66, 168, 176, 161, 63,
    212, 87, 231, 138, 255, 255, 255, 255, 127, 255, 255, 255, 128, 0, 0, 0, 0, 0, 0, 0, 127, 255,
    255, 255, 73, 173, 130, 114, 189, 214, 143, 167, 159, 117, 75, 165, 171, 223, 98, 167, 0, 0, 0,
    72, 196, 236, 190, 38, 128, 0, 0, 0, 0, 0, 0, 1, 0, 0, 0, 1, 128, 0, 0, 0,
];

fn show<W: Write>(
    out: &mut Listing<'_, W, impl PathText>,
    body: &[u8],
    entry: SatEntry,
) -> io::Result<()> {
    match entry {
        SatEntry::PositionV2(s) => satellites::show(out, s),
        SatEntry::CellFragment(f) => fragments::show(out, body, f),
        SatEntry::TimeAssociation(a) => associations::show(out, a),
        SatEntry::BeamhoppingTimePlan(p) => list_plans::show(out, body, p),
        SatEntry::PositionV3(s) => list_ephemeris::show(out, body, s),
        SatEntry::Raw(_) => Ok(()),
    }
}

// The header and the first entry of a body, as listed under a path.
fn listed(alloc: Global, path: impl PathText, id: u8, body: &[u8]) -> Result<Vec<u8>, Fail> {
    let mut lines = Vec::new(alloc);
    let mut out = Listing::with_path(&mut lines, path);
    if let Ok(Some(h)) = header(id, body) {
        list_ephemeris::show_header(&mut out, h)?;
    }
    if let Ok(Some(entry)) = entry_at(id, body, 0) {
        show(&mut out, body, entry)?;
    }
    drop(out);
    Ok(lines)
}

// Compares the lines of a body under both paths. `count` is how many there are.
fn compare(rt: &impl Abort, alloc: Global, id: u8, body: &[u8], count: usize) -> Result<(), Fail> {
    let long = listed(alloc, ArrayString::<160>::from(LONG)?, id, body)?;
    let short = listed(alloc, ArrayString::<64>::from("x")?, id, body)?;
    let short_text = str::from_utf8(&short)?;
    assert_eq!(rt; short_text.lines().count(), count);
    let mut long_lines = str::from_utf8(&long)?.lines();
    for line in short_text.lines() {
        let field = line.strip_prefix("x").ok_or("no path")?;
        let long_line = long_lines.next().and_then(|l| l.strip_prefix(LONG));
        assert_eq!(rt; long_line, Some(field));
    }
    assert!(rt; long_lines.next().is_none());
    Ok(())
}

#[test]
fn satellite(rt: HostRuntime) -> Result<(), Fail> {
    compare(&rt, rt.alloc(), 0, &SATELLITE, 15)
}

#[test]
fn fragment(rt: HostRuntime) -> Result<(), Fail> {
    compare(&rt, rt.alloc(), 1, &FRAGMENT, 26)
}

#[test]
fn association(rt: HostRuntime) -> Result<(), Fail> {
    compare(&rt, rt.alloc(), 2, &ASSOCIATION, 10)
}

#[test]
fn plan(rt: HostRuntime) -> Result<(), Fail> {
    compare(&rt, rt.alloc(), 3, &PLAN, 18)
}

#[test]
fn reserved_plan(rt: HostRuntime) -> Result<(), Fail> {
    compare(&rt, rt.alloc(), 3, &RESERVED_PLAN, 14)
}

#[test]
fn satellite_v3(rt: HostRuntime) -> Result<(), Fail> {
    compare(&rt, rt.alloc(), 4, &SATELLITE_V3, 73)
}
