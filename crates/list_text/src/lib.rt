// The text that sat_entries writes: a line for each field of a body, under the field's path.
#![tactic(auto)]

ghost use Rattle.std.specs.Prelude.{◌≡◌};

use arrayvec::ArrayString;
use clocks::{Clock, Stamp};
use parts::Part;
use std::convert::AsStr;
use std::fmt::{Display, Write as _};
use std::io::{ErrorKind, Write};
use std::{fmt, io};

#[cfg(test)]
mod tests;

// The most bytes of a path of `Listing::new`; the longest one of sat_entries has 50.
const PATH_MAX: usize = 64;

// What a path lies in: an `ArrayString` of any size, or another text of the caller's, such as a `String`.
pub trait PathText: Clone + fmt::Write + AsStr {}

impl<P: Clone + fmt::Write + AsStr> PathText for P {}

// The lines of one part of a body: where they go, and the part's path, as `plans[2].mode`. That of the body is empty.
#[derive(Drop)]
pub struct Listing<'a, W: Write, P: PathText = ArrayString<PATH_MAX>> {
    to: &'a mut W,
    path: P,
}

// What a path that its text has no room for is told by.
fn path_full(_: fmt::Error) -> io::Error {
    io::Error::from(ErrorKind::StorageFull)
}

impl<'a, W: Write> Listing<'a, W> {
    // The listing of a body. Its paths have at most 64 bytes.
    pub fn new(to: &'a mut W) -> Listing<'a, W> {
        Listing::with_path(to, ArrayString::new())
    }
}

impl<'a, W: Write, P: PathText> Listing<'a, W, P> {
    // The listing of the part that has this path. Paths are as long as a text of this type can be.
    pub fn with_path(to: &'a mut W, path: P) -> Listing<'a, W, P>
        ensures output { result.to.ghost_name ≡ to.entry.ghost_name }
        ensures unwritten { result.to.now ≡ to.old }
        ensures path { result.path ≡ path }
    {
        Listing { to, path }
    }

    // The listing of a part, under its name.
    pub fn part(&mut self, name: &str) -> io::Result<Listing<'_, W, P>> {
        let mut path = self.path.clone()?;
        if !path.as_str().is_empty() {
            path.write_str(".").map_err(path_full)?;
        }
        path.write_str(name).map_err(path_full)?;
        let to = &mut *self.to;
        Ok(Listing { to, path })
    }

    // The listing of an element of a list.
    pub fn element(&mut self, index: usize) -> io::Result<Listing<'_, W, P>> {
        let mut path = self.path.clone()?;
        write!(path, "[{index}]").map_err(path_full)?;
        let to = &mut *self.to;
        Ok(Listing { to, path })
    }

    // Lines as they stand, with their line ends.
    pub fn text(&mut self, lines: &str) -> io::Result<()> {
        self.to.write_all(lines.as_bytes())
    }

    // A line that belongs to no field.
    pub fn line<T: Display + Drop>(&mut self, text: T) -> io::Result<()> {
        writeln!(self.to, "{text}")
    }

    // A field and its value.
    pub fn field<N: Display + Drop, V: Display + Drop>(
        &mut self,
        name: N,
        value: V,
    ) -> io::Result<()> {
        let path = self.path.as_str();
        if path.is_empty() {
            return writeln!(self.to, "{name} {value}");
        }
        writeln!(self.to, "{path}.{name} {value}")
    }

    // The value of a part that has no fields.
    pub fn value<V: Display + Drop>(&mut self, value: V) -> io::Result<()> {
        let path = self.path.as_str();
        writeln!(self.to, "{path} {value}")
    }

    // A flag: 1 where it is set.
    pub fn flag(&mut self, name: &str, set: bool) -> io::Result<()> {
        self.field(name, u8::from(set))
    }

    // A part that the body does not have.
    pub fn absent(&mut self, name: &str) -> io::Result<()> {
        self.field(name, "none")
    }

    // Where a list lies in the body: its first byte, from 0, and how many bytes it has.
    pub fn place(&mut self, part: Part) -> io::Result<()> {
        let start = part.start;
        let length = part.length;
        self.field("part", format_args!("{start} {length}"))
    }

    // The number of a list's elements, and where the list lies.
    pub fn list(&mut self, part: Part) -> io::Result<()> {
        self.field("len", part.count)?;
        self.place(part)
    }

    // A clock: the names of its base and its extension start with the stem, that of its reserved bits with its own.
    pub fn clock(&mut self, stem: &str, reserved_stem: &str, clock: Clock) -> io::Result<()> {
        self.field(format_args!("{stem}base"), clock.base)?;
        let reserved = clock.reserved;
        self.field(
            format_args!("{reserved_stem}reserved_zero_future_use"),
            reserved,
        )?;
        self.field(format_args!("{stem}ext"), clock.ext)
    }

    // A stamp, named in the same way.
    pub fn stamp(&mut self, stem: &str, reserved_stem: &str, stamp: Stamp) -> io::Result<()> {
        self.field(format_args!("{stem}year"), stamp.year)?;
        let reserved = stamp.reserved;
        self.field(
            format_args!("{reserved_stem}reserved_zero_future_use"),
            reserved,
        )?;
        self.field(format_args!("{stem}day"), stamp.day)?;
        self.field(format_args!("{stem}day_fraction"), stamp.fraction)
    }
}

// The bytes of the body that a part names; none where the body does not have them.
pub fn bytes_of(body: &[u8], part: Part) -> &[u8] {
    let length = part.length;
    body.get(part.start..)
        .and_then(|rest| rest.get(..length))
        .unwrap_or(&[])
}

// Bytes as text: in hexadecimal, `-` where there are none.
#[derive(Clone, Copy)]
pub struct Hexadecimal<'a>(pub &'a [u8]);

impl Display for Hexadecimal<'_> {
    // Eight bytes at a time where there are as many: what a call of the formatter costs is shared by their digits.
    fn fmt<W: fmt::Write>(&self, f: &mut fmt::Formatter<W>) -> fmt::Result {
        if self.0.is_empty() {
            return write!(f, "-");
        }
        for bytes in self.0.chunks(8) {
            match <[u8; 8]>::try_from(bytes) {
                Ok(eight) => write!(f, "{:016x}", u64::from_be_bytes(eight))?,
                Err(_) => {
                    for byte in bytes {
                        write!(f, "{byte:02x}")?;
                    }
                }
            }
        }
        Ok(())
    }
}

// So many slots as text: a digit for each, `-` where there are none. The first is the highest bit of the first byte.
#[derive(Clone, Copy)]
pub struct Slots<'a> {
    pub bytes: &'a [u8],
    pub count: usize,
}

impl Slots<'_> {
    // The digit of the slot at an index; `?` where the bytes do not have it.
    fn digit(&self, index: usize) -> char {
        match self.bytes.get(index / 8) {
            Some(byte) if (byte >> (7 - index % 8)) % 2 == 1 => '1',
            Some(_) => '0',
            None => '?',
        }
    }
}

impl Display for Slots<'_> {
    // Handed to the formatter by many at once, since each call of it costs more than a digit.
    fn fmt<W: fmt::Write>(&self, f: &mut fmt::Formatter<W>) -> fmt::Result {
        if self.count == 0 {
            return write!(f, "-");
        }
        let mut digits = ArrayString::<64>::new();
        for i in 0..self.count {
            if digits.is_full() {
                f.write_str(digits.as_str())?;
                digits.clear();
            }
            digits.try_push(self.digit(i)).map_err(|_| fmt::Error)?;
        }
        f.write_str(digits.as_str())
    }
}
