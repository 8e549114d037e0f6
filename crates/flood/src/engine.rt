// The net that is played: running boxes, the wires between them, and the frames on the wires.
use crate::fate::Fate;
use crate::packet::packet;
use crate::trouble::Trouble;
use crate::watch::{Asked, Watch};
use frames::Entry;
use ground::{Carried, End, Ground, Plug};
use node::Node;
use outbox::{Outbox, Port};
use packets::packet_in;
use script::{Command, Fault};
use std::io;
use std::io::IsTerminal;
use travel::{Step, Traveller};

// A frame on its way: where it was sent, and over which wire.
#[derive(Drop)]
struct Letter {
    from: End,
    over: Plug,
    frame: Vec<u8>,
}

// The most parcels that one call of a box gives out: none has fewer than three bytes.
const MOST_PARCELS: usize = 65536 / 3;

// `count`: how many boxes there are. `boxes`: by their numbers. `ground`: the wires between them, and the numbers that are drawn.
// `flight`: what is on the wires, in the order in which it was sent; `sent`: what the line or tick that is played adds to it, so that it is empty between lines. `out`: what the box that was called last gave out.
#[derive(Drop)]
pub(crate) struct Net {
    count: u8,
    boxes: Vec<Node>,
    ground: Ground,
    flight: Vec<Letter>,
    sent: Vec<Letter>,
    out: Outbox,
    watch: Watch,
}

// The number of the refusal that a line of the journal notes, if it notes one.
fn refusal_in(line: &[u8], n: u8) -> Option<u8> {
    match frames::read_line(line, n.min(64)) {
        Ok((line, _)) => match line.what {
            Entry::Refused(number) => Some(number),
            _ => None,
        },
        Err(_) => None,
    }
}

impl Net {
    pub(crate) fn new(rt: &HostRuntime, count: u8, asked: &Asked) -> Result<Net, Trouble> {
        let mut net = Net {
            count,
            boxes: Vec::new(rt.alloc()),
            ground: Ground::new(),
            flight: Vec::new(rt.alloc()),
            sent: Vec::new(rt.alloc()),
            out: Outbox::new(),
            watch: Watch::new(rt, asked, count)?,
        };
        for me in 0..count {
            let node = net::begin(&mut net.ground, count, me, &mut net.out).or(Err(Fault::Form))?;
            net.boxes.push(node)?;
            let _ = net.post(rt, me)?;
        }
        Ok(net)
    }

    pub(crate) fn at_rest(&self) -> bool {
        net::at_rest(self.boxes.as_slice())
    }

    // All that is to be kept is in its files.
    pub(crate) fn close(&mut self) -> io::Result<()> {
        self.watch.flush()
    }

    fn has(&self, a: u8) -> Result<(), Fault> {
        if a < self.count {
            Ok(())
        } else {
            Err(Fault::Form)
        }
    }

    // What the box that was called last gave out goes where it belongs; and the number of the refusal that it noted, if it noted one.
    // Kept: a place goes from parcel to parcel, as `Outbox::parcel` gives the next. An iterator would say in its law what that call says, and this loop would lend the outbox to it for as long.
    fn post(&mut self, rt: &HostRuntime, a: u8) -> Result<Option<u8>, Trouble> {
        let mut refused = None;
        let mut at = 0;
        for _parcel in 0..MOST_PARCELS {
            let Some(parcel) = self.out.parcel(at) else {
                break;
            };
            at = parcel.next;
            match parcel.port {
                Port::Wire(wire) => {
                    let from = End { at: a, wire };
                    self.watch.sends(rt, from, parcel.bytes)?;
                    if let Carried::To(over) = self.ground.carry(from) {
                        let frame = Vec::from_slice(rt.alloc(), parcel.bytes)?;
                        self.sent.push(Letter { from, over, frame })?;
                    }
                }
                Port::House => self.watch.hands_out(rt, a, parcel.bytes)?,
                Port::Book => {
                    self.watch.notes(a, parcel.bytes)?;
                    refused = refused.or(refusal_in(parcel.bytes, self.count));
                }
            }
        }
        Ok(refused)
    }

    // The end of a box's wire changes its cost.
    fn set_cost(&mut self, rt: &HostRuntime, end: End, cost: u16) -> Result<(), Trouble> {
        net::set_cost(self.boxes.as_mut_slice(), end, cost, &mut self.out);
        self.post(rt, end.at)?;
        Ok(())
    }

    // The ends of the wire between two boxes, if there is one, that of `a` first.
    fn between(&self, a: u8, e: u8) -> Option<(End, End)> {
        let here = self.ground.between(a, e)?;
        let there = self.ground.across(here)?;
        Some((here, there.end))
    }

    // A wire is laid at the lowest free number of each end, or its costs change; 0 0 takes it away, and what is on it is lost.
    fn road(
        &mut self,
        rt: &HostRuntime,
        a: u8,
        e: u8,
        cost: u16,
        back: u16,
    ) -> Result<(), Trouble> {
        self.has(a)?;
        self.has(e)?;
        let (here, there) = match self.between(a, e) {
            Some(ends) => ends,
            None if cost > 0 => {
                net::lay(self.boxes.as_slice(), &mut self.ground, a, e).ok_or(Fault::Form)?
            }
            None => return Ok(()),
        };
        self.set_cost(rt, here, cost)?;
        self.set_cost(rt, there, back)?;
        if cost == 0 {
            net::take_away(&mut self.ground, here);
        }
        Ok(())
    }

    // A box loses all that it knew, and draws a new number.
    fn fall(&mut self, rt: &HostRuntime, a: u8) -> Result<(), Trouble> {
        self.has(a)?;
        net::fall(
            self.boxes.as_mut_slice(),
            &mut self.ground,
            a,
            &mut self.out,
        );
        self.post(rt, a)?;
        Ok(())
    }

    // The next things that go from one box to another are lost.
    fn lose(&mut self, a: u8, e: u8, count: u32) -> Result<(), Fault> {
        let here = self.ground.between(a, e).ok_or(Fault::Form)?;
        self.ground.lose(here, count);
        Ok(())
    }

    // All boxes tick, in rising order; then what was sent in the last tick arrives, in the order in which it was sent.
    fn ticks(&mut self, rt: &HostRuntime, count: u32) -> Result<(), Trouble> {
        let shown = count >= 1000 && rt.stderr().is_terminal();
        for tick in 0..count {
            if shown && tick % 100 == 0 {
                eprint!(rt; "\rtick {tick} of {count} ")?;
            }
            for a in 0..self.count {
                self.tick_box(rt, a)?;
            }
            let arriving = std::mem::replace(&mut self.flight, Vec::new(rt.alloc()));
            for letter in arriving {
                self.arrive(rt, letter)?;
            }
            self.flight = std::mem::replace(&mut self.sent, Vec::new(rt.alloc()));
        }
        if shown {
            eprint!(rt; "\r{:30}\r", "")?;
        }
        Ok(())
    }

    fn tick_box(&mut self, rt: &HostRuntime, a: u8) -> Result<(), Trouble> {
        net::tick(
            self.boxes.as_mut_slice(),
            &mut self.ground,
            a,
            &mut self.out,
        );
        self.post(rt, a)?;
        Ok(())
    }

    // A frame arrives, unless its wire is gone: what it makes the box give out goes its way, and so does the frame of a packet that is handed on.
    fn arrive(&mut self, rt: &HostRuntime, letter: Letter) -> Result<(), Trouble> {
        let Letter {
            from,
            over,
            mut frame,
        } = letter;
        if !self.ground.reaches(from, over) {
            return Ok(());
        }
        let at = over.end.at;
        self.watch.takes(rt, over.end, frame.as_slice())?;
        let port = net::arrive(
            self.boxes.as_mut_slice(),
            &mut self.ground,
            from,
            over,
            frame.as_mut_slice(),
            &mut self.out,
        );
        self.post(rt, at)?;
        match port {
            Some(Port::Wire(wire)) => {
                let from = End { at, wire };
                self.watch.sends(rt, from, frame.as_slice())?;
                if let Carried::To(over) = self.ground.carry(from) {
                    self.sent.push(Letter { from, over, frame })?;
                }
            }
            Some(_) => self.watch.hands_out(rt, at, packet_in(frame.as_slice()))?,
            None => {}
        }
        Ok(())
    }

    // A packet goes its whole way at this moment, each box handing it on by itself; an error for it goes like all else, a step in a tick.
    fn send(&mut self, rt: &HostRuntime, a: u8, e: u8) -> Result<Fate, Trouble> {
        self.has(a)?;
        self.has(e)?;
        let mut frame = packet(a, e);
        let mut boxes = Vec::new(rt.alloc());
        let mut packet = Traveller::from_house(a);
        for _step in 0..=64 {
            let at = packet.at;
            boxes.push(at)?;
            let step = packet.step(
                self.boxes.as_mut_slice(),
                &mut self.ground,
                &mut frame,
                &mut self.out,
            );
            let refused = self.post(rt, at)?;
            match step {
                Step::Onward(wire, to) => {
                    self.watch.sends(rt, End { at, wire }, &frame)?;
                    self.watch.takes(rt, to, &frame)?;
                }
                Step::Out => {
                    self.watch.hands_out(rt, at, packet_in(&frame))?;
                    return Ok(Fate::Arrived(boxes, packet.cost));
                }
                Step::Refused => return Ok(Fate::Refused(at, refused.unwrap_or(0))),
                Step::Lost(wire, to) => {
                    self.watch.sends(rt, End { at, wire }, &frame)?;
                    return Ok(Fate::Lost(at, to));
                }
            }
        }
        Ok(Fate::Refused(packet.at, 0))
    }

    // A line of a net that is played already, and what became of the packet that it sends, if it does.
    pub(crate) fn obey(
        &mut self,
        rt: &HostRuntime,
        command: Command,
    ) -> Result<Option<Fate>, Trouble> {
        match command {
            Command::Boxes(_) => return Err(Fault::Form.into()),
            Command::Road(a, e, cost, back) => self.road(rt, a, e, cost, back)?,
            Command::Fall(a) => self.fall(rt, a)?,
            Command::Lose(a, e, count) => self.lose(a, e, count)?,
            Command::Tick(count) => self.ticks(rt, count)?,
            Command::Send(a, e) => {
                let fate = self.send(rt, a, e)?;
                self.flight.append(&mut self.sent)?;
                return Ok(Some(fate));
            }
        }
        Ok(None)
    }
}
