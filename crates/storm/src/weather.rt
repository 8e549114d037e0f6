// A net in a storm: running boxes on wires that repeat, delay, reorder, damage and lose what is on them, while boxes fall and wires come and go.
use crate::dice::Dice;
use crate::least::{Costs, NEVER};
use crate::packet::{is_left, packet};
use ground::{Carried, End, Ground, Plug};
use node::Node;
use outbox::{Outbox, Port};
use std::io;
use travel::{Step, Traveller};

// A frame on its way: where it was sent, and over which wire.
#[derive(Drop)]
struct Letter {
    from: End,
    over: Plug,
    frame: Vec<u8>,
}

// The most parcels that one call of a box gives out: none has fewer than three bytes.
const MOST_PARCELS: usize = 65536 / 3;

// The most frames that are on the wires in a storm; what is more is lost.
const MOST_LETTERS: usize = 2000;

// `costs`: what the wires cost that are there. `flight`: what is on the wires. `sent`: what is put on them now.
#[derive(Drop)]
pub(crate) struct Weather {
    pub(crate) count: u8,
    pub(crate) costs: Costs,
    dice: Dice,
    boxes: Vec<Node>,
    ground: Ground,
    flight: Vec<Letter>,
    sent: Vec<Letter>,
    out: Outbox,
}

// How a packet ended, or that it went on for too long; whether its bytes are right; and where that was, after what way.
#[derive(Clone, Copy)]
pub(crate) struct Fate {
    pub(crate) end: Option<Step>,
    pub(crate) right: bool,
    pub(crate) packet: Traveller,
}

impl Weather {
    pub(crate) fn new(rt: &HostRuntime, number: u64) -> io::Result<Option<Weather>> {
        let mut dice = Dice::new(number);
        let count = match dice.below(8) {
            0 => 2,
            1 => 3,
            2 => 5,
            3 => 8,
            4 => 13,
            5 => 21,
            6 => 34,
            _ => 64,
        };
        let mut weather = Weather {
            count,
            costs: Costs::new(rt, count)?,
            dice,
            boxes: Vec::new(rt.alloc()),
            ground: Ground::new(),
            flight: Vec::new(rt.alloc()),
            sent: Vec::new(rt.alloc()),
            out: Outbox::new(),
        };
        for me in 0..count {
            let Ok(node) = net::begin(&mut weather.ground, count, me, &mut weather.out) else {
                return Ok(None);
            };
            weather.boxes.push(node)?;
        }
        Ok(Some(weather))
    }

    // What box `a` gave out goes on the wires.
    fn post(&mut self, rt: &HostRuntime, a: u8) -> io::Result<()> {
        let mut at = 0;
        for _parcel in 0..MOST_PARCELS {
            let Some(parcel) = self.out.parcel(at) else {
                break;
            };
            at = parcel.next;
            if let Port::Wire(wire) = parcel.port {
                let from = End { at: a, wire };
                if let Carried::To(over) = self.ground.carry(from) {
                    let frame = Vec::from_slice(rt.alloc(), parcel.bytes)?;
                    self.sent.push(Letter { from, over, frame })?;
                }
            }
        }
        Ok(())
    }

    fn tick(&mut self, rt: &HostRuntime, a: u8) -> io::Result<()> {
        net::tick(
            self.boxes.as_mut_slice(),
            &mut self.ground,
            a,
            &mut self.out,
        );
        self.post(rt, a)
    }

    fn arrive(&mut self, rt: &HostRuntime, letter: &mut Letter) -> io::Result<()> {
        net::arrive(
            self.boxes.as_mut_slice(),
            &mut self.ground,
            letter.from,
            letter.over,
            letter.frame.as_mut_slice(),
            &mut self.out,
        );
        self.post(rt, letter.over.end.at)
    }

    // The two ends of a wire get these costs; both 0 takes it away.
    fn set_costs(
        &mut self,
        rt: &HostRuntime,
        here: End,
        there: End,
        cost: u16,
        back: u16,
    ) -> io::Result<()> {
        net::set_cost(self.boxes.as_mut_slice(), here, cost, &mut self.out);
        self.post(rt, here.at)?;
        net::set_cost(self.boxes.as_mut_slice(), there, back, &mut self.out);
        self.post(rt, there.at)?;
        if cost == 0 {
            net::take_away(&mut self.ground, here);
        }
        let (to, fro) = if cost == 0 {
            (NEVER, NEVER)
        } else {
            (u32::from(cost), u32::from(back))
        };
        self.costs.set(here.at, there.at, to);
        self.costs.set(there.at, here.at, fro);
        Ok(())
    }

    fn cost(&mut self) -> u16 {
        match self.dice.below(5) {
            0 => 1,
            1 => 2,
            2 => 3,
            3 => 10,
            _ => 65535,
        }
    }

    // A wire between two boxes is laid, changes its costs or is taken away.
    fn rewire(&mut self, rt: &HostRuntime) -> io::Result<()> {
        let a = self.dice.box_of(self.count);
        let e = self.dice.box_of(self.count);
        let (cost, back) = (self.cost(), self.cost());
        if let Some(here) = self.ground.between(a, e) {
            let Some(there) = self.ground.across(here) else {
                return Ok(());
            };
            if self.dice.one_in(2) {
                return self.set_costs(rt, here, there.end, 0, 0);
            }
            return self.set_costs(rt, here, there.end, cost, back);
        }
        match net::lay(self.boxes.as_slice(), &mut self.ground, a, e) {
            Some((here, there)) => self.set_costs(rt, here, there, cost, back),
            None => Ok(()),
        }
    }

    fn fall(&mut self, rt: &HostRuntime) -> io::Result<()> {
        let a = self.dice.box_of(self.count);
        net::fall(
            self.boxes.as_mut_slice(),
            &mut self.ground,
            a,
            &mut self.out,
        );
        self.post(rt, a)
    }

    // The next things that go out somewhere are lost.
    fn lose(&mut self) {
        let end = End {
            at: self.dice.box_of(self.count),
            wire: self.dice.byte_below(8),
        };
        let count = self.dice.byte_below(30);
        self.ground.lose(end, u32::from(count));
    }

    // One thing on the wires comes, whichever: it may be damaged, and it may stay on its way, to come again.
    fn gust(&mut self, rt: &HostRuntime) -> io::Result<()> {
        let place = self.dice.place(self.flight.len());
        if place >= self.flight.len() {
            return Ok(());
        }
        let mut letter = self.flight.swap_remove(place);
        if self.dice.one_in(8) {
            let copy = Vec::from_slice(rt.alloc(), letter.frame.as_slice())?;
            self.flight.push(Letter {
                from: letter.from,
                over: letter.over,
                frame: copy,
            })?;
        }
        if self.dice.one_in(16) {
            let place = self.dice.place(letter.frame.len());
            let bit = self.dice.byte_below(8);
            if let Some(byte) = letter.frame.get_mut(place) {
                *byte ^= 1u8.rotate_left(u32::from(bit));
            }
        }
        if self.dice.one_in(10) {
            return Ok(());
        }
        self.arrive(rt, &mut letter)
    }

    // What was put on the wires is on them.
    fn settle(&mut self) -> io::Result<()> {
        self.flight.append(&mut self.sent)?;
        Ok(())
    }

    // So many moments of a storm.
    pub(crate) fn rage(&mut self, rt: &HostRuntime) -> io::Result<u64> {
        let moments = self
            .dice
            .below(60)
            .saturating_mul(u64::from(self.count))
            .saturating_add(300);
        for _moment in 0..moments {
            match self.dice.below(64) {
                0 => self.fall(rt)?,
                1 | 2 => self.lose(),
                3..=12 => self.rewire(rt)?,
                _ => {}
            }
            for a in 0..self.count {
                if self.dice.one_in(2) {
                    self.tick(rt, a)?;
                }
            }
            let things = self
                .dice
                .below(u64::from(self.count).saturating_mul(2).saturating_add(2));
            for _thing in 0..things {
                self.gust(rt)?;
            }
            self.settle()?;
            for _more in MOST_LETTERS..self.flight.len() {
                let place = self.dice.place(self.flight.len());
                if place < self.flight.len() {
                    self.flight.swap_remove(place);
                }
            }
        }
        Ok(moments)
    }

    // So many ticks of a net that is left alone: all boxes tick, and what was sent before comes, in its order.
    pub(crate) fn calm(&mut self, rt: &HostRuntime, ticks: u32) -> io::Result<()> {
        for _tick in 0..ticks {
            for a in 0..self.count {
                self.tick(rt, a)?;
            }
            let arriving = std::mem::replace(&mut self.flight, Vec::new(rt.alloc()));
            for mut letter in arriving {
                self.arrive(rt, &mut letter)?;
            }
            self.settle()?;
        }
        Ok(())
    }

    pub(crate) fn at_rest(&self) -> bool {
        net::at_rest(self.boxes.as_slice())
    }
}

// How a packet is followed on its way.
impl Weather {
    // A packet from one box to another goes its whole way at this moment.
    pub(crate) fn send(&mut self, a: u8, e: u8) -> Fate {
        let mut frame = packet(a, e);
        let mut packet = Traveller::from_house(a);
        for _step in 0..=64 {
            match packet.step(
                self.boxes.as_mut_slice(),
                &mut self.ground,
                &mut frame,
                &mut self.out,
            ) {
                Step::Onward(_, _) => {}
                end => {
                    return Fate {
                        end: Some(end),
                        right: is_left(&frame, a, e, packet.steps),
                        packet,
                    };
                }
            }
        }
        Fate {
            end: None,
            right: false,
            packet,
        }
    }
}
