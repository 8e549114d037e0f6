// Which road is open over which wire, and what else a box knows.
ghost use Rattle.hello.specs.State.{LowestTo, cost_over, links_of, wire_of};
ghost use Rattle.linkmodel.specs.Links.{road_cost, who_on};
ghost use Rattle.std.specs.Prelude.{◌≡◌};

use crate::state::{Links, Wire};

impl Links {
    // The lowest wire over which the road to a box is open.
    pub fn wire_to(&self, to: u8) -> Option<u8>
        ensures lowest { LowestTo to (links_of self.now) result }
        ensures costs { road_cost to (links_of self.now) ≡ cost_over result (links_of self.now) }
    {
        self.wires
            .iter()
            .position(|wire| wire.opens_to(to))
            .map(|w| w as u8)
    }

    // What the road to a box costs, 0 if it isn't open.
    pub fn road(&self, to: u8) -> u16
        ensures { result ≡ road_cost to (links_of self.now) }
    {
        self.wire_to(to).map_or(0, |wire| self.cost(wire))
    }

    // What it knows of a wire: nothing of one that isn't there.
    pub(crate) fn wire_at(self, wire: u8) -> Wire
        ensures { wire_of result ≡ (links_of self).wire wire }
    {
        self.wires
            .get(usize::from(wire))
            .copied()
            .unwrap_or(Wire::Silent)
    }

    // Whom it heard on a wire.
    pub fn who(self, wire: u8) -> Option<u8>
        ensures { result ≡ who_on ((links_of self).wire wire) }
    {
        self.wire_at(wire).who()
    }

    // The drawn number of the last hello that it took from a box, 0 if there was none.
    pub fn last(&self, of: u8) -> u64
        ensures { result ≡ (links_of self.now).last of }
    {
        self.last.get(usize::from(of)).copied().unwrap_or(0)
    }

    // What a wire costs, 0 if there is none.
    pub fn cost(&self, wire: u8) -> u16
        ensures { result ≡ (links_of self.now).cost wire }
    {
        self.costs.get(usize::from(wire)).copied().unwrap_or(0)
    }

    // The number that it drew.
    pub fn drawn(self) -> u64
        ensures { result ≡ (links_of self).drawn }
    {
        self.drawn
    }

    // How often it ticked.
    pub fn now(self) -> u32
        ensures { result ≡ (links_of self).tick }
    {
        self.tick
    }

    // Which of the boxes it is.
    pub fn box_number(self) -> u8
        ensures { result ≡ (links_of self).me }
    {
        self.me
    }

    // How many boxes there are.
    pub fn boxes(self) -> u8
        ensures { result ≡ (links_of self).n }
    {
        self.n
    }
}
