// Which packets are refused, and who sent one.
ghost use Rattle.std.specs.Prelude.{◌≡◌, IfOk, Some};
ghost use Rattle.std.specs.List.{list_any};
ghost use Rattle.hello.specs.State.{links_of};
ghost use Rattle.linkmodel.specs.Station.{teller};
ghost use Rattle.station.specs.Packets.{is_out, is_spent, packet_refusal};
ghost use Rattle.station.specs.State.{RefusedBy, station_of};

use crate::answers::Refusal;
use crate::state::Station;
use hello::Links;
use messages::WordId;

// The most that one packet holds.
const MOST: u8 = 4;

// Whether one of these is about no box of `n`, or has a count of 0.
fn any_out(n: u8, ids: &[WordId]) -> bool
    ensures { result ≡ list_any (is_out n) ids.now }
{
    ids.iter().any(|id| id.about >= n || id.count == 0)
}

// Whether one of them has a count that nobody says.
fn any_spent(ids: &[WordId]) -> bool
    ensures { result ≡ list_any is_spent ids.now }
{
    ids.iter().any(|id| !id.is_counted())
}

// Who sends on a wire, if the road to that box is open.
fn teller(links: Links, wire: u8) -> Option<u8>
    ensures { result ≡ teller wire (links_of links) }
{
    links.who(wire).filter(|from| links.road(*from) > 0)
}

impl Station {
    // Who sends on a wire, if the road to that box is open.
    pub fn teller(&self, wire: u8) -> Option<u8>
        ensures { result ≡ teller wire (station_of self.now).links }
    {
        teller(self.links, wire)
    }

    // Who sent a packet of these, unless it is refused.
    // Kept: the count and the numbers as two parameters, since a packet of words has its numbers within its words: one parameter would be a packet of numbers, whose drawn number nothing reads here, or would take a closure for the number of an item beside it.
    #[tactic(auto, using(crate::proofs::Scans::any_in_take))]
    pub(crate) fn admits(self, wire: u8, count: u8, ids: [WordId; 4]) -> Result<u8, Refusal>
        ensures refused { RefusedBy (packet_refusal (station_of self).box.n (teller wire (station_of self).links) count ids) result }
        ensures from { IfOk result (λ e. teller wire (station_of self).links ≡ Some e) }
    {
        if count == 0 || count > MOST {
            return Err(Refusal::OutOfRange);
        }
        let ids = &ids[..usize::from(count)];
        if any_out(self.router.boxes(), ids) {
            return Err(Refusal::OutOfRange);
        }
        let from = teller(self.links, wire).ok_or(Refusal::NoRoad)?;
        if any_spent(ids) {
            return Err(Refusal::CountSpent);
        }
        Ok(from)
    }
}
