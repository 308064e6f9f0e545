// A line of the input: a case in hexadecimal, taken a character at a time.
use crate::case::show_case;
use arrayvec::ArrayVec;
use list_text::Listing;
use std::io;
use std::io::Write;

// How many bytes of a line are kept: the table id, and 65,536 of the body.
const MOST: usize = 65537;

// Why a line is no case.
#[derive(Clone, Copy)]
enum NoCase {
    NoInput,
    NotHexadecimal,
    TooLong,
}

impl NoCase {
    // What is listed of it, and an empty line.
    fn lines(self) -> &'static str {
        match self {
            NoCase::NoInput => "case no input\n\n",
            NoCase::NotHexadecimal => "case not hexadecimal\n\n",
            NoCase::TooLong => "case too long\n\n",
        }
    }
}

// What there is of the line in hand.
#[derive(Drop)]
pub struct Line {
    bytes: ArrayVec<u8, MOST>,
    // A digit that is the upper half of a byte, as that half.
    half: Option<u8>,
    // What is wrong with it so far.
    fault: Option<NoCase>,
}

impl Line {
    pub fn new() -> Line {
        Line {
            bytes: ArrayVec::new(),
            half: None,
            fault: None,
        }
    }

    pub fn clear(&mut self) {
        self.bytes.clear();
        self.half = None;
        self.fault = None;
    }

    pub fn is_empty(&self) -> bool {
        self.bytes.is_empty() && self.half.is_none() && self.fault.is_none()
    }

    // Takes a character. One that is no digit is told before all else, and a line too long only where it has none.
    pub fn take(&mut self, character: u8) {
        let Some(digit) = char::from(character).to_digit(16) else {
            self.fault = Some(NoCase::NotHexadecimal);
            return;
        };
        let digit = digit as u8;
        match self.half.take() {
            None => self.half = Some(digit << 4),
            Some(half) => self.take_byte(half | digit),
        }
    }

    fn take_byte(&mut self, byte: u8) {
        if self.bytes.try_push(byte).is_err() && self.fault.is_none() {
            self.fault = Some(NoCase::TooLong);
        }
    }

    // Lists the case of a line that is whole: its first byte is the table id, the others are the body.
    pub fn show<W: Write>(&self, out: &mut Listing<'_, W>) -> io::Result<()> {
        let fault = match self.half {
            Some(_) => Some(NoCase::NotHexadecimal),
            None => self.fault,
        };
        match (fault, self.bytes.split_first()) {
            (None, Some((id, body))) => show_case(out, *id, body),
            (None, None) => out.text(NoCase::NoInput.lines()),
            (Some(fault), _) => out.text(fault.lines()),
        }
    }
}
