// The way of a packet towards another box.
ghost use Rattle.std.specs.Prelude.{◌≡◌};
ghost use Rattle.node.specs.Passing.{way_to};
ghost use Rattle.node.specs.State.{whole_of};

use crate::refusals::Refusal;
use crate::state::Node;

impl Node {
    // The wire of the road to the next box; or there is no way, or that road is closed.
    pub(crate) fn way(&self, to: u8) -> Result<u8, Refusal>
        ensures { result ≡ way_to to (whole_of self.now) }
    {
        let next = self.station.hands_on(to).ok_or(Refusal::NoWay)?;
        self.station.open_wire(next).ok_or(Refusal::Closed)
    }
}
