// Hellos that a box sends and hears.
ghost use Rattle.std.specs.Prelude.{◌≡◌, ℕ, ◌<◌, cond, IfOk, ◌==◌};
ghost use Rattle.hello.specs.State.{RefusedBy, greeting_of, hears_refusal, hello_on, links_of, reason_of, sent_as, wire_at, wire_of};
ghost use Rattle.linkmodel.specs.Links.{Heard as HeardFrom, Open as OpenTo, closed_to, greeted, hears_hello, hello_refusal};

use crate::answers::Refusal;
use crate::state::{Contact, Links, Wire};
use messages::Hello;

// After how many ticks the next hello goes out.
const HELLO_EVERY: u32 = 10;

impl Links {
    // The hello that goes out on a wire at this tick, if one does; one goes out on each wire that there is.
    pub fn hello_on(self, wire: u8) -> Option<Hello>
        ensures { sent_as result ≡ hello_on wire (links_of self) }
    {
        if self.cost(wire) == 0 || self.tick % HELLO_EVERY != 0 {
            return None;
        }
        Some(Hello {
            from: self.me,
            drawn: self.drawn,
            heard: self.wire_at(wire).heard(),
        })
    }

    // Whether a hello on a wire that has a cost is refused, and why.
    fn admits(self, wire: u8, hello: Hello) -> Result<(), Refusal>
        ensures { RefusedBy (reason_of (hello_refusal wire (greeting_of hello) (links_of self))) result }
    {
        if hello.from >= self.n || hello.from == self.me || hello.drawn == 0 {
            return Err(Refusal::OutOfRange);
        }
        if self.wire_at(wire).taken(hello.from) {
            return Err(Refusal::OtherBox);
        }
        Ok(())
    }

    // What a wire is once a hello came on it: open if the hello names the number that this box drew, so that both have heard each other.
    fn after(self, hello: Hello) -> Wire
        ensures { wire_of result ≡ cond (hello.heard == self.drawn) (OpenTo hello.from hello.drawn self.tick) (HeardFrom hello.from hello.drawn self.tick) }
    {
        let contact = Contact {
            from: hello.from,
            drawn: hello.drawn,
            when: self.tick,
        };
        if hello.heard == self.drawn {
            Wire::Open(contact)
        } else {
            Wire::Heard(contact)
        }
    }

    // What the other wires are then: if the hello brings another drawn number of its box, that box has fallen, and no road to it is open.
    fn others_after(self, hello: Hello) -> [Wire; 8]
        ensures { (v : ℕ) → wire_at result v ≡ cond ((links_of self).last hello.from == hello.drawn) (wire_at self.wires v) (closed_to hello.from (wire_at self.wires v)) }
    {
        if self.last(hello.from) == hello.drawn {
            self.wires
        } else {
            self.wires.map(|wire| wire.closed_to(hello.from))
        }
    }

    // A hello that isn't refused.
    fn greeted(mut self, wire: u8, hello: Hello) -> Links
        requires { (wire < 8) × (hello.from < 64) }
        ensures { links_of result ≡ greeted wire (greeting_of hello) (links_of self) }
    {
        let heard = self.after(hello);
        self.wires = self.others_after(hello);
        self.wires[wire as usize] = heard;
        self.last[hello.from as usize] = hello.drawn;
        self
    }

    // A hello comes on a wire; on one without a cost it is dropped.
    pub fn hears(self, wire: u8, hello: Hello) -> Result<Links, Refusal>
        ensures refused { RefusedBy (hears_refusal wire (greeting_of hello) (links_of self)) result }
        ensures is { IfOk result (λ s. links_of s ≡ hears_hello wire (greeting_of hello) (links_of self)) }
    {
        if wire >= 8 {
            return Err(Refusal::OutOfRange);
        }
        if self.costs[wire as usize] == 0 {
            return Ok(self);
        }
        self.admits(wire, hello)?;
        Ok(self.greeted(wire, hello))
    }
}
