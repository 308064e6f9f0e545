// The lines that the programs print: bytes in hexadecimal, a refusal, and a line with its place in front; stored in a
// buffer that the caller lends.
#![tactic(auto)]

ghost use Rattle.std.specs.Prelude.{◌≡◌, ◌+◌, ◌≤◌, ◌++◌, length};
ghost use Rattle.ledger_text.specs.Text.{decimal, hex_line, placed, refusal_line, spaced, Stored};

use arrayvec::ArrayVec;
use hex::encode_to_slice;
use itoa::Buffer;

// The longest line of a refusal.
const REFUSAL_MOST: usize = 65;

// The bytes in lowercase hexadecimal and a newline, and the line's length. A buffer that is too short stays as it is.
pub fn hex_line(bytes: &[u8], out: &mut [u8]) -> Option<usize>
    ensures { Stored (hex_line bytes.now) out.old out.new result }
{
    let end = 2 * bytes.len();
    if out.len() <= end {
        return None;
    }
    encode_to_slice(bytes, &mut out[..end]).ok()?;
    out[end] = b'\n';
    Some(end + 1)
}

// A line at the buffer's start, and its length. A buffer that is too short stays as it is.
pub fn put_line(line: &[u8], out: &mut [u8]) -> Option<usize>
    ensures { Stored line.now out.old out.new result }
{
    let size = line.len();
    if out.len() < size {
        return None;
    }
    out[..size].copy_from_slice(line);
    Some(size)
}

// A number behind what there is of a line.
fn push_digits(line: &mut ArrayVec<u8, REFUSAL_MOST>, n: usize)
    requires { length line.old.items + 20 ≤ 65 }
    ensures text { line.new.items ≡ line.old.items ++ decimal n }
    ensures most { length line.new.items ≤ length line.old.items + 20 }
{
    let mut digits = Buffer::new();
    // There is room for 20 digits.
    let _ = line.try_extend_from_slice(digits.format(n).as_bytes());
}

// A space and a number behind what there is of a line.
fn push_number(line: &mut ArrayVec<u8, REFUSAL_MOST>, n: usize)
    requires { length line.old.items + 21 ≤ 65 }
    ensures text { line.new.items ≡ line.old.items ++ spaced n }
    ensures most { length line.new.items ≤ length line.old.items + 21 }
{
    line.push(b' ');
    push_digits(line, n);
}

// `R`, the refusal's number, need and have behind a space each, and a newline, stored as a line; 65 bytes hold
// every such line. The number is any byte's, as the text spells it.
pub fn refusal_line(number: u8, need: usize, have: usize, out: &mut [u8]) -> Option<usize>
    ensures { Stored (refusal_line number need have) out.old out.new result }
{
    let mut line = ArrayVec::new();
    line.push(b'R');
    push_number(&mut line, number as usize);
    push_number(&mut line, need);
    push_number(&mut line, have);
    line.push(b'\n');
    put_line(&line, out)
}

// A line with a place and a space in front, stored as a line; they are 21 bytes at most.
pub fn placed_line(place: usize, line: &[u8], out: &mut [u8]) -> Option<usize>
    ensures { Stored (placed place line.now) out.old out.new result }
{
    let mut front = ArrayVec::new();
    push_digits(&mut front, place);
    front.push(b' ');
    let start = front.len();
    let size = start + line.len();
    if size > out.len() {
        return None;
    }
    out[..start].copy_from_slice(&front);
    out[start..size].copy_from_slice(line);
    Some(size)
}
