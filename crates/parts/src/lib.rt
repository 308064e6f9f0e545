// A list inside an entry: where its bytes lie in the body, and how many slots of a bitmap are on.
#![tactic(auto)]

ghost use Rattle.std.specs.Prelude.{◌≡◌, ◌+◌, ◌*◌, ◌≤◌, length, take, drop};
ghost use Rattle.format.specs.Digits.{bits_of};
ghost use Rattle.format.specs.ByName.{ones};
ghost use Rattle.parts.specs.Parts.{part_at};

use bit_reader::enough;
use bits::{Cursor, read_u};
use format::{Fault, Found, Refusal};

// The bytes of the body that hold a list, and how many elements it has. It names them and does not hold them, so that
// the records have no lifetime; the body goes beside it.
#[derive(Clone, Copy)]
pub struct Part {
    pub start: usize,
    pub length: usize,
    pub count: usize,
}

// A count of 10 bits, and behind it so many elements of some bits each; refused with a fault of the caller's where they
// pass the end.
pub fn read_part(from: Cursor<'_>, fault: Fault, bits: usize) -> Result<Found<Part>, Refusal>
    requires { bits ≤ 80 }
    ensures { result ≡ part_at from.entry.body.now fault bits from.entry.at }
{
    let found = read_u(from, 10)?;
    let count = found.value as usize;
    let size = count * bits;
    enough(from.to(found.next), fault, size)?;
    Ok(Found {
        value: Part {
            start: found.next as usize / 8,
            length: size / 8,
            count,
        },
        next: (found.next as usize + size) as u16,
    })
}

// How many of the size bits from the byte start on are set; the last byte's padding is shifted out.
pub fn slots_on(s: &[u8], start: usize, size: usize) -> u32
    requires { (8 * start + size ≤ 8 * length s.now) × (size ≤ 32767) × (length s.now ≤ 65536) }
    ensures { result ≡ ones (take size (drop (8 * start) (bits_of s.now))) }
{
    let whole = size / 8;
    let rest = size % 8;
    let on: u32 = s[start..start + whole]
        .iter()
        .map(|byte| byte.count_ones())
        .sum();
    if rest == 0 {
        return on;
    }
    on + (s[start + whole] >> (8 - rest)).count_ones()
}
