// What is seen of the boxes from outside: what each sends and takes, if that is asked for, and its journal.
use ground::End;
use std::fs::File;
use std::io::{BufWriter, Write};
use std::{fmt, fs, io};

// How a net is watched: whether each frame is printed, and where the journals go, if they go anywhere.
#[derive(Drop)]
pub(crate) struct Asked {
    pub(crate) trace: bool,
    pub(crate) books: Option<String>,
}

// Bytes as hexadecimal digits.
#[derive(Clone, Copy)]
struct Hex<'a>(&'a [u8]);

impl fmt::Display for Hex<'_> {
    fn fmt<W: fmt::Write>(&self, f: &mut fmt::Formatter<W>) -> fmt::Result {
        for byte in self.0 {
            write!(f, "{byte:02x}")?;
        }
        Ok(())
    }
}

// What a frame says it is.
fn kind(frame: &[u8]) -> &str {
    match frame.first() {
        Some(1) => "hello",
        Some(2) => "words",
        Some(3) => "seen",
        Some(4) => "packet",
        _ => "junk",
    }
}

// `trace`: whether each frame is printed. `books`: the journal of each box, by its number; none where none are kept.
#[derive(Drop)]
pub(crate) struct Watch {
    trace: bool,
    books: Vec<BufWriter<File>>,
}

impl Watch {
    // A net of so many boxes is watched; its journals begin anew.
    pub(crate) fn new(rt: &HostRuntime, asked: &Asked, count: u8) -> io::Result<Watch> {
        let mut books = Vec::new(rt.alloc());
        if let Some(folder) = &asked.books {
            for a in 0..count {
                let path = format!(in rt.alloc(); "{folder}/box-{a}.book")?;
                let file = fs::create(rt, path.as_str())?;
                books.push(BufWriter::new(rt.alloc(), file)?)?;
            }
        }
        Ok(Watch {
            trace: asked.trace,
            books,
        })
    }

    // A box sends a frame on one of its wires.
    pub(crate) fn sends(&self, rt: &HostRuntime, from: End, frame: &[u8]) -> io::Result<()> {
        self.frame(rt, "sends", from, frame)
    }

    // A frame comes to a box over one of its wires.
    pub(crate) fn takes(&self, rt: &HostRuntime, to: End, frame: &[u8]) -> io::Result<()> {
        self.frame(rt, "takes", to, frame)
    }

    fn frame(&self, rt: &HostRuntime, does: &str, end: End, frame: &[u8]) -> io::Result<()> {
        if !self.trace {
            return Ok(());
        }
        let End { at, wire } = end;
        println!(rt; "{at} {does} {wire} {} {}", kind(frame), Hex(frame))
    }

    // A house of a box gets a packet.
    pub(crate) fn hands_out(&self, rt: &HostRuntime, at: u8, packet: &[u8]) -> io::Result<()> {
        if !self.trace {
            return Ok(());
        }
        println!(rt; "{at} hands out {}", Hex(packet))
    }

    // A line goes into the journal of a box.
    pub(crate) fn notes(&mut self, a: u8, line: &[u8]) -> io::Result<()> {
        match self.books.get_mut(usize::from(a)) {
            Some(book) => book.write_all(line),
            None => Ok(()),
        }
    }

    // All lines so far are in the files.
    pub(crate) fn flush(&mut self) -> io::Result<()> {
        for book in self.books.iter_mut() {
            book.flush()?;
        }
        Ok(())
    }
}
