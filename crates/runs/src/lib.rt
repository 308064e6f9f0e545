// What both directions of the ledger share: what a field is, by its mark in a run of fields; bytes copied as they are,
// and laid one behind the other.
#![tactic(auto)]

ghost use Rattle.std.specs.Prelude.{◌≡◌, ◌+◌, ◌%◌, ◌^◌, ◌<◌, ◌≤◌, T, length};
ghost use Rattle.format.specs.Digits.{digits};
ghost use Rattle.runs.specs.Lines.{width_of, size_of, size_for, shown_of, mark_ok};
ghost use Rattle.runs.specs.Stored.{stored};
ghost use Rattle.runs.specs.Appended.{AppendedAt};

use bits::put_be;
use marks::EXT;

pub mod marks;

// Where a run of fields ended: its place in the ledger, its place in the body, in bits, and the last field's number.
// Places of a body that is read fit 16 bits; one that is laid may be longer before it is refused.
// The order of the fields is for speed: with `at` first, writing takes up to 3 % more instructions.
#[derive(Clone, Copy)]
pub struct RunEnd<P> {
    pub place: usize,
    pub at: P,
    pub last: u64,
}

// The flags of a satellite of id 4, which say what follows them.
#[derive(Clone, Copy)]
pub struct Flags {
    pub metadata: bool,
    pub start: bool,
    pub stop: bool,
    pub acceleration: bool,
    pub covariance: bool,
}

// The bits of a field in a body.
pub fn width_of(mark: u8) -> usize
    ensures { result ≡ width_of mark }
{
    if mark < 128 {
        return mark as usize;
    }
    (mark - 128) as usize
}

// The bytes of a field in a ledger.
pub fn size_of(mark: u8) -> usize
    ensures { result ≡ size_of mark }
{
    match mark {
        0..=8 => 1,
        9..=16 => 2,
        17..=32 => 4,
        33..=127 => 8,
        EXT => 2,
        _ => 4,
    }
}

// The same of a field whose number is v; none where that is refused, as an extension above 299 is.
pub fn size_for(mark: u8, v: u64) -> Option<usize>
    ensures { result ≡ size_for mark v }
{
    let beyond = 299 < v;
    if mark == EXT && beyond {
        return None;
    }
    Some(size_of(mark))
}

// The number that a ledger has for the number v of a field: a signed one is widened to 32 bits.
pub fn shown_of(mark: u8, v: u64) -> u64
    requires valid { T (mark_ok mark) }
    requires v_bound { v < 2 ^ width_of mark }
    ensures { result ≡ shown_of mark v }
{
    if mark < 128 {
        return v;
    }
    let w = mark - 128;
    if v < 1u64 << (w - 1) {
        return v;
    }
    if mark == EXT {
        return v;
    }
    v + ((1u64 << 32) - (1u64 << w))
}

// The low bits of a number, as many as a field has.
pub fn low_of(mark: u8, x: u64) -> u64
    requires { T (mark_ok mark) }
    ensures { result ≡ x % 2 ^ width_of mark }
{
    let rest = 64 - width_of(mark);
    (x << rest) >> rest
}

// Copies bytes as they are to the buffer's start, where there is room for all of them; else the buffer stays as it was.
// By index, since the library's copy would need memmove from whoever links the archive for C.
pub fn copy_bytes(bytes: &[u8], out: &mut [u8])
    ensures { out.new ≡ stored out.old 0 bytes.now }
{
    let n = bytes.len();
    if n <= out.len() {
        for i in 0..n {
            out[i] = bytes[i];
        }
    }
}

// Stores bytes at a place where there is room for all of them; the place behind them.
pub fn append(bytes: &[u8], out: &mut [u8], at: usize) -> usize
    requires { (at ≤ 1000000) × (length bytes.now ≤ 65537) }
    ensures { AppendedAt bytes.now at out.old out.new result }
{
    let start = at.min(out.len());
    copy_bytes(bytes, &mut out[start..]);
    at + bytes.len()
}

// Stores a number in two bytes at a place where there is room for them; the place behind them.
pub fn append_pair(v: u64, out: &mut [u8], at: usize) -> usize
    requires { at ≤ 1000000 }
    ensures appended { AppendedAt (digits 256 2 v) at out.old out.new result }
    ensures two { result ≡ at + 2 }
{
    let behind = at + 2;
    if behind <= out.len() {
        put_be(out, at, 2, v);
    }
    behind
}
