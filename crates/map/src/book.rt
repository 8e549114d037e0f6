// A journal file, and the tick up to which it is read.
use journal::{Memory, Outcome};
use octets::Fault;
use std::{fmt, fs, io};

// What the journal in a file says up to a tick. What is wrong with the file is said on standard error.
pub(crate) fn open(rt: &HostRuntime, file: &str, until: u32) -> io::Result<Outcome> {
    match fs::read(rt, file) {
        Ok(bytes) => Ok(journal::replay(bytes.as_slice(), until)),
        Err(e) => {
            eprintln!(rt; "map: {file}: {e}")?;
            Err(e)
        }
    }
}

// The tick that a word of the command line gives: digits, with no sign.
pub(crate) fn tick(word: &str) -> Option<u32> {
    if word.starts_with("+") {
        return None;
    }
    word.parse().ok()
}

// What is wrong with a line of a journal, and where it begins.
#[derive(Clone, Copy, Debug, PartialEq, Eq)]
pub(crate) struct Wrong {
    fault: Fault,
    place: usize,
}

impl fmt::Display for Wrong {
    fn fmt<W: fmt::Write>(&self, f: &mut fmt::Formatter<W>) -> fmt::Result {
        write!(f, "fault {} at {}", u8::from(self.fault), self.place)
    }
}

// What is wrong with the line after those that were read, if anything is.
pub(crate) fn fault_of(book: &Outcome) -> Option<Wrong> {
    book.fault.map(|fault| Wrong {
        fault,
        place: book.place,
    })
}

// Calls `each` with every road, from a box to another, and its cost.
pub(crate) fn each_road<F: Fn(u8, u8, u16) -> io::Result<()> + Drop>(
    memory: &Memory,
    each: F,
) -> io::Result<()>
    requires { F.IsAlwaysCallable each }
{
    let n = memory.boxes();
    for a in 0..n {
        for e in 0..n {
            let cost = memory.road(a, e);
            if cost > 0 {
                each(a, e, cost)?;
            }
        }
    }
    Ok(())
}
