// One running box on standard input and output, so that any wire can be put on it by a few lines of any language.
//
// A thin program over the proved box and its proved lines: it reads lines, calls the box, and prints what that gives out.
#![tactic(auto)]

mod running;
mod stock;

use running::Running;
use std::fs::File;
use std::io::{BufRead, BufReader};
use std::{env, fmt, fs, io};

const HELP: &str =
    "box [--book FILE]: runs one box on standard input and output, a line for each thing that comes or goes.

Lines read; HEX is bytes as pairs of hexadecimal digits:
  settings HEX    the settings: 6, how many boxes there are, which this is, and for each of 8 wires
                  its cost in two bytes, 0 for no wire; the first one begins the box
  draw HEX        a number of 64 bits, as 16 digits, never drawn before by anybody; not 0
  wire W HEX      a frame that came over wire W, 0 to 7
  house HEX       a packet from a house of this box
  tick            a tenth of a second passed
  fall            the box loses all that it knew
Lines printed:
  wire W HEX      a frame to be sent over wire W
  house HEX       a packet for a house of this box
  book HEX        a line of the journal; with --book FILE its bytes go into FILE instead
  draw K          K more numbers are wanting for the line just read, which did nothing: give them, and
                  then the line again
  refused NUMBER  the line did nothing: 1 if it has none of these forms, comes before any settings, or
                  is a draw beyond the 1024 numbers that are kept; or settings to begin with are bad,
                  1 in their form and 2 in a number
One number is used up by the first settings, by each tick and by each fall, and four by each frame of
words. Whatever is printed for a line is written out before the next line is read. The program ends
at the end of its input.
";

// Says on standard error what is wrong with how the program was called.
fn refuse(rt: &HostRuntime, why: impl fmt::Display + Drop) -> io::Result<()> {
    eprintln!(rt; "box: {why}; box --help says how to use it")?;
    Err(io::Error::from(io::ErrorKind::InvalidInput))
}

fn listen(rt: &HostRuntime, book: Option<File>) -> io::Result<()> {
    let mut running = Running::new(rt, book);
    let reader = BufReader::new(rt.alloc(), rt.stdin())?;
    for line in reader.split(rt.alloc(), b'\n') {
        running.line(rt, line?.as_slice())?;
    }
    Ok(())
}

fn main(rt: HostRuntime) -> io::Result<()> {
    let mut args = env::args(&rt)?;
    let _program = args.next();
    let words: Vec<String> = args.collect(rt.alloc())?;
    match words.as_slice() {
        [] => listen(&rt, None),
        [word] if word.as_str() == "--help" => rt.print(HELP),
        [word, file] if word.as_str() == "--book" => match fs::create(&rt, file.as_str()) {
            Ok(book) => listen(&rt, Some(book)),
            Err(e) => {
                eprintln!(rt; "box: {file}: {e}")?;
                Err(e)
            }
        },
        _ => refuse(&rt, "only --book FILE may be given"),
    }
}
