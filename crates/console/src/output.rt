// Writes a line that a box gives.
ghost use Rattle.std.specs.Prelude.{Some};
ghost use Rattle.console.specs.Outputs.{hex_text, text_of};

use super::input::Fault;
use std::fmt;

// What a line says.
#[derive(Clone, Copy)]
pub enum Output<'a> {
    // `wire W HEX`: a frame goes over a wire.
    Wire(u8, &'a [u8]),
    // `house HEX`: a packet goes to a house.
    House(&'a [u8]),
    // `book HEX`: a line goes into the journal.
    Book(&'a [u8]),
    // `draw K`: so many numbers are wanting.
    Draw(u8),
    // `refused N`: the line that was read is refused.
    Refused(Fault),
}

// Bytes as pairs of small hexadecimal digits.
#[derive(Clone, Copy)]
struct Pairs<'a>(&'a [u8]);

impl fmt::Display for Pairs<'_> {
    ghost output = { λ pairs. Some (hex_text pairs.0.now) };

    fn fmt<W: fmt::Write>(&self, f: &mut fmt::Formatter<W>) -> fmt::Result {
        for &b in self.0 {
            write!(f, "{b:02x}")?;
        }
        Ok(())
    }
}

impl fmt::Display for Output<'_> {
    ghost output = { λ output. Some (text_of output) };

    fn fmt<W: fmt::Write>(&self, f: &mut fmt::Formatter<W>) -> fmt::Result {
        match self {
            Output::Wire(w, bytes) => {
                let pairs = Pairs(bytes);
                write!(f, "wire {w} {pairs}")
            }
            Output::House(bytes) => {
                let pairs = Pairs(bytes);
                write!(f, "house {pairs}")
            }
            Output::Book(bytes) => {
                let pairs = Pairs(bytes);
                write!(f, "book {pairs}")
            }
            Output::Draw(count) => write!(f, "draw {count}"),
            Output::Refused(fault) => {
                let number = u8::from(*fault);
                write!(f, "refused {number}")
            }
        }
    }
}
