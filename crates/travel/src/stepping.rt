// A packet goes on by one box.
ghost use Rattle.std.specs.Prelude.{◌≡◌, ℕ, ◌+◌, ◌^◌, ◌<◌, ◌≤◌, List, length, None};
ghost use Rattle.ground.specs.Wires.{WentOut, lost_at, plug_at};
ghost use Rattle.ground.specs.declared.state.Ground.{Ground as AnyGround};
ghost use Rattle.netbytes.specs.Places.{whole_at};
ghost use Rattle.node.specs.declared.state.Node.{Node as AnyNode};
ghost use Rattle.outbox.specs.Parcels.{contents};
ghost use Rattle.travel.specs.Arrives.{Delivers, OnTheWay};
ghost use Rattle.travel.specs.Passes.{Goes, LosesNothing, Passes, Travelling};
ghost use Rattle.travel.specs.Steps.{CostFits, Did, GotAt, NoBox, Used, crossed, gone, paid};

use crate::values::{Step, Traveller};
use ground::{Carried, End, Ground};
use node::Node;
use outbox::{Outbox, Port};

// What a wire costs at its end, 0 where there is no such box or wire.
fn cost_at(boxes: &[Node], end: End) -> u16
    ensures { result ≡ (whole_at boxes.now end.at).links.cost end.wire }
{
    match boxes.get(usize::from(end.at)) {
        Some(node) => node.links().cost(end.wire),
        None => 0,
    }
}

impl Traveller {
    // A packet that a house of this box sends.
    pub fn from_house(at: u8) -> Traveller
        ensures is { result ≡ record { at = at; came = None; cost = 0; steps = 0 } }
        ensures starts { (bs : List AnyNode) (g : AnyGround) (f : List ℕ) → at < length bs → OnTheWay bs g at f result f }
    {
        Traveller {
            at,
            came: None,
            cost: 0,
            steps: 0,
        }
    }

    // Its box gets it in a frame: where that goes then.
    fn got(&self, boxes: &mut [Node], frame: &mut [u8], out: &mut Outbox) -> Option<Port>
        requires { self.now.at < length boxes.old }
        ensures { GotAt self.now.at self.now.came frame.old boxes.old boxes.new (contents out.new) frame.new result }
    {
        let node = &mut boxes[usize::from(self.at)];
        match self.came {
            None => node.house(frame, out),
            Some(wire) => node.wire(wire, frame, [0; 4], out),
        }
    }

    // It goes out on a wire of its box.
    fn crosses(&mut self, wire: u8, boxes: &[Node], ground: &mut Ground) -> Step
        ensures went { (self.new, result) ≡ crossed wire (whole_at boxes.now) (plug_at ground.old self.old.at wire) (lost_at ground.old self.old.at wire) (paid ((whole_at boxes.now self.old.at).links.cost wire) self.old) }
        ensures left { WentOut self.old.at wire ground.old ground.new }
        ensures fits { (whole_at boxes.now self.old.at).links.cost wire < 2 ^ 16 }
    {
        let from = End { at: self.at, wire };
        self.cost = self.cost.saturating_add(u32::from(cost_at(boxes, from)));
        match ground.carry(from) {
            Carried::Nowhere => Step::Lost(wire, self.at),
            Carried::Lost(plug) => Step::Lost(wire, plug.end.at),
            Carried::To(plug) => {
                if cost_at(boxes, plug.end) == 0 {
                    return Step::Lost(wire, plug.end.at);
                }
                self.at = plug.end.at;
                self.came = Some(plug.end.wire);
                self.steps = self.steps.saturating_add(1);
                Step::Onward(wire, plug.end)
            }
        }
    }

    // It goes where its box sent it.
    fn goes(&mut self, port: Option<Port>, boxes: &[Node], ground: &mut Ground) -> Step
        ensures gone { (self.new, result) ≡ gone port (whole_at boxes.now) ground.old self.old }
        ensures used { Used port self.old.at ground.old ground.new }
        ensures fits { CostFits port (whole_at boxes.now self.old.at) }
    {
        match port {
            None => Step::Refused,
            Some(Port::House) => Step::Out,
            Some(Port::Book) => Step::Lost(0, self.at),
            Some(Port::Wire(wire)) => self.crosses(wire, boxes, ground),
        }
    }

    // Its box gets it in its frame: it comes out to a house, is refused, or goes out on a wire and gets across, or is lost there.
    pub fn step(
        &mut self,
        boxes: &mut [Node],
        ground: &mut Ground,
        frame: &mut [u8],
        out: &mut Outbox,
    ) -> Step
        ensures did { self.old.at < length boxes.old → Did self.old frame.old boxes.old ground.old self.new frame.new boxes.new ground.new (contents out.new) result }
        ensures nobody { length boxes.old ≤ self.old.at → NoBox self.old frame.old boxes.old ground.old self.new frame.new boxes.new ground.new (contents out.new) result }
        ensures passes { Travelling boxes.old self.old frame.old → Passes self.old frame.old boxes.old ground.old self.new frame.new boxes.new ground.new (contents out.new) result }
        ensures goes { Travelling boxes.old self.old frame.old → LosesNothing ground.old → self.old.cost + 65535 < 2 ^ 32 → self.old.steps + 1 < 2 ^ 8 → Goes self.old frame.old boxes.old ground.old self.new frame.new boxes.new ground.new result }
        ensures delivers { Delivers self.old frame.old boxes.old ground.old self.new frame.new boxes.new ground.new (contents out.new) result }
    {
        if usize::from(self.at) >= boxes.len() {
            out.clear();
            return Step::Refused;
        }
        let port = self.got(boxes, frame, out);
        self.goes(port, boxes, ground)
    }
}
