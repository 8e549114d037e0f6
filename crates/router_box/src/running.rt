// The box, and what each line does.
use crate::stock::Stock;
use console::{Fault, Hex, Input, Output};
use node::Node;
use outbox::{Outbox, Port};
use packets::packet_in;
use std::fs::File;
use std::io;
use std::io::Write;

// The most parcels that one call of a box gives out: none has fewer than three bytes.
const MOST_PARCELS: usize = 65536 / 3;

// The kind of a frame of words, each of which may make the box say one.
const WORDS: u8 = 2;

// `node`: the box, once settings have begun it. `stock`: numbers drawn for it. `out`: what its last call gave out. `book`: where its journal goes, if not to standard output.
#[derive(Drop)]
pub(crate) struct Running {
    node: Option<Node>,
    stock: Stock,
    out: Outbox,
    book: Option<File>,
}

// What became of a line: it was done; so many numbers are wanting for it; or it is refused, by a number.
#[derive(Clone, Copy, Debug, PartialEq, Eq)]
enum Done {
    Done,
    Wanting(u8),
    Refused(u8),
}

impl From<Fault> for Done {
    fn from(fault: Fault) -> Done {
        Done::Refused(fault.into())
    }
}

// Bytes by their digits, with so many zeros before them and behind.
fn bytes_of(rt: &HostRuntime, hex: &Hex<'_>, before: usize, behind: usize) -> io::Result<Vec<u8>> {
    let long = before.saturating_add(hex.len());
    let mut bytes = Vec::new(rt.alloc());
    bytes.resize(long.saturating_add(behind), 0)?;
    if let Some(place) = bytes.as_mut_slice().get_mut(before..) {
        let _ = hex.write(place);
    }
    Ok(bytes)
}

impl Running {
    pub(crate) fn new(rt: &HostRuntime, book: Option<File>) -> Running {
        Running {
            node: None,
            stock: Stock::new(rt),
            out: Outbox::new(),
            book,
        }
    }

    // Does what a line asks for, and prints what comes of it.
    pub(crate) fn line(&mut self, rt: &HostRuntime, line: &[u8]) -> io::Result<()> {
        let done = match console::read(line) {
            Ok(input) => self.input(rt, input)?,
            Err(fault) => fault.into(),
        };
        match done {
            Done::Done => Ok(()),
            Done::Wanting(count) => println!(rt; "{}", Output::Draw(count)),
            Done::Refused(number) => println!(rt; "refused {number}"),
        }
    }

    fn input(&mut self, rt: &HostRuntime, input: Input<'_>) -> io::Result<Done> {
        match input {
            Input::Draw(number) => self.draw(number),
            Input::Settings(hex) => self.settings(rt, &hex),
            Input::Wire(wire, hex) => self.wire(rt, wire, &hex),
            Input::House(hex) => self.house(rt, &hex),
            Input::Tick => self.tick(rt),
            Input::Fall => self.fall(rt),
        }
    }

    fn draw(&mut self, number: u64) -> io::Result<Done> {
        if self.stock.is_full() {
            return Ok(Fault::Form.into());
        }
        self.stock.put(number)?;
        Ok(Done::Done)
    }

    // Settings come: the first ones that are good begin the box.
    fn settings(&mut self, rt: &HostRuntime, hex: &Hex<'_>) -> io::Result<Done> {
        let settings = bytes_of(rt, hex, 0, 0)?;
        if let Some(node) = &mut self.node {
            node.settings(settings.as_slice(), &mut self.out);
            self.post(rt)?;
            return Ok(Done::Done);
        }
        let wanting = self.stock.wants(1);
        if wanting > 0 {
            return Ok(Done::Wanting(wanting));
        }
        let drawn = self.stock.next();
        match Node::begin(settings.as_slice(), drawn, &mut self.out) {
            Ok(node) => {
                let _ = self.stock.take();
                self.node = Some(node);
                self.post(rt)?;
                Ok(Done::Done)
            }
            Err(refusal) => Ok(Done::Refused(refusal.into())),
        }
    }

    // A frame comes over a wire.
    fn wire(&mut self, rt: &HostRuntime, wire: u8, hex: &Hex<'_>) -> io::Result<Done> {
        let Some(node) = &mut self.node else {
            return Ok(Fault::Form.into());
        };
        let mut frame = bytes_of(rt, hex, 0, 0)?;
        let tells = frame.as_slice().first() == Some(&WORDS);
        let wanting = self.stock.wants(if tells { 4 } else { 0 });
        if wanting > 0 {
            return Ok(Done::Wanting(wanting));
        }
        let mut tags = [0u64; 4];
        if tells {
            for tag in &mut tags {
                *tag = self.stock.take();
            }
        }
        let port = node.wire(wire, frame.as_mut_slice(), tags, &mut self.out);
        self.post(rt)?;
        self.pass(rt, port, frame.as_slice())
    }

    // A packet comes from a house.
    fn house(&mut self, rt: &HostRuntime, hex: &Hex<'_>) -> io::Result<Done> {
        let Some(node) = &mut self.node else {
            return Ok(Fault::Form.into());
        };
        let mut frame = bytes_of(rt, hex, 1, 4)?;
        let port = node.house(frame.as_mut_slice(), &mut self.out);
        self.post(rt)?;
        self.pass(rt, port, frame.as_slice())
    }

    fn tick(&mut self, rt: &HostRuntime) -> io::Result<Done> {
        let Some(node) = &mut self.node else {
            return Ok(Fault::Form.into());
        };
        let wanting = self.stock.wants(1);
        if wanting > 0 {
            return Ok(Done::Wanting(wanting));
        }
        node.tick(self.stock.take(), &mut self.out);
        self.post(rt)?;
        Ok(Done::Done)
    }

    fn fall(&mut self, rt: &HostRuntime) -> io::Result<Done> {
        let Some(node) = &mut self.node else {
            return Ok(Fault::Form.into());
        };
        let wanting = self.stock.wants(1);
        if wanting > 0 {
            return Ok(Done::Wanting(wanting));
        }
        node.fall(self.stock.take(), &mut self.out);
        self.post(rt)?;
        Ok(Done::Done)
    }

    // A packet that goes on goes out where it belongs.
    fn pass(&mut self, rt: &HostRuntime, port: Option<Port>, frame: &[u8]) -> io::Result<Done> {
        match port {
            Some(Port::Wire(wire)) => println!(rt; "{}", Output::Wire(wire, frame))?,
            Some(Port::House) => println!(rt; "{}", Output::House(packet_in(frame)))?,
            Some(Port::Book) | None => {}
        }
        Ok(Done::Done)
    }

    // What the last call gave out is printed, and the lines of the journal go into the book.
    // Kept: a place goes from parcel to parcel, as `Outbox::parcel` gives the next. An iterator would say in its law what that call says, and this loop would lend the outbox to it for as long.
    fn post(&mut self, rt: &HostRuntime) -> io::Result<()> {
        let mut at = 0;
        for _parcel in 0..MOST_PARCELS {
            let Some(parcel) = self.out.parcel(at) else {
                return Ok(());
            };
            at = parcel.next;
            match (parcel.port, &mut self.book) {
                (Port::Wire(wire), _) => {
                    println!(rt; "{}", Output::Wire(wire, parcel.bytes))?;
                }
                (Port::House, _) => println!(rt; "{}", Output::House(parcel.bytes))?,
                (Port::Book, Some(book)) => book.write_all(parcel.bytes)?,
                (Port::Book, None) => println!(rt; "{}", Output::Book(parcel.bytes))?,
            }
        }
        Ok(())
    }
}
