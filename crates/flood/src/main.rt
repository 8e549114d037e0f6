// Plays a net by a script, and prints after each line whether the net is at rest, and before that what became of a packet.
//
// A thin program over the proved boxes: it reads lines, carries the bytes that the boxes send along the wires, and prints.
#![tactic(auto)]

mod engine;
mod fate;
mod packet;
mod play;
mod trouble;
mod watch;

use play::Player;
use std::io::{BufRead, BufReader};
use std::{env, fmt, fs, io};
use watch::Asked;

const HELP: &str =
    "flood [--trace] [--book DIR] [SCRIPT]: plays the net of a script, or of standard input.

A script begins with the line
  boxes N              a new net of N boxes, 1 to 64, numbered from 0
and goes on with lines of these forms:
  road A E COST BACK   a road between A and E, at COST from A and BACK from E; 0 0 takes it away
  fall A               box A loses all that it knew
  lose A E N           the next N things that go from A to E are lost
  tick N               N ticks pass
  send A E             a packet goes from A to E
After each line it prints rest or no rest; for send before that the way of the packet, where it was
refused and by which number, or where it was lost; for a line of another form just 1.

--trace                prints also what goes over the wires, in hexadecimal digits:
  A sends W KIND HEX   box A sends a frame on its wire W
  A takes W KIND HEX   a frame comes to box A over its wire W
  A hands out HEX      a house of box A gets a packet
--book DIR             writes the journal of box A to DIR/box-A.book, for map to read; a later
                       line boxes N begins them anew
";

// What the words after the program's name ask for.
#[derive(Drop)]
struct Options {
    help: bool,
    script: Option<String>,
    asked: Asked,
}

// Says on standard error what is wrong with how the program was called.
fn refuse(rt: &HostRuntime, why: impl fmt::Display + Drop) -> io::Result<()> {
    eprintln!(rt; "flood: {why}; flood --help says how to use it")?;
    Err(io::Error::from(io::ErrorKind::InvalidInput))
}

// The options; none where a word is missing or there is one too many.
fn read_options(rt: &HostRuntime) -> io::Result<Option<Options>> {
    let mut options = Options {
        help: false,
        script: None,
        asked: Asked {
            trace: false,
            books: None,
        },
    };
    let mut args = env::args(rt)?;
    let _program = args.next();
    let mut folder_next = false;
    for word in args {
        if folder_next {
            options.asked.books = Some(word);
            folder_next = false;
            continue;
        }
        match word.as_str() {
            "--help" => options.help = true,
            "--trace" => options.asked.trace = true,
            "--book" => folder_next = true,
            _ if options.script.is_none() => options.script = Some(word),
            _ => return Ok(None),
        }
    }
    Ok((!folder_next).then_some(options))
}

fn listen<R: BufRead + Drop>(rt: &HostRuntime, asked: Asked, reader: R) -> io::Result<()> {
    let mut player = Player::new(asked);
    for line in reader.split(rt.alloc(), b'\n') {
        player.line(rt, line?.as_slice())?;
    }
    player.close()
}

fn main(rt: HostRuntime) -> io::Result<()> {
    let Some(options) = read_options(&rt)? else {
        return refuse(
            &rt,
            "--book wants a folder, and there is at most one script",
        );
    };
    let Options {
        help,
        script,
        asked,
    } = options;
    if help {
        return rt.print(HELP);
    }
    let Some(script) = script else {
        return listen(&rt, asked, BufReader::new(rt.alloc(), rt.stdin())?);
    };
    match fs::open(&rt, script.as_str()) {
        Ok(file) => listen(&rt, asked, BufReader::new(rt.alloc(), file)?),
        Err(e) => {
            eprintln!(rt; "flood: {script}: {e}")?;
            Err(e)
        }
    }
}
