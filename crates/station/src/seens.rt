// A packet of seens comes.
ghost use Rattle.std.specs.Prelude.{◌≡◌, [], IfOk, None};
ghost use Rattle.linkmodel.specs.Station.{sees_all, teller};
ghost use Rattle.model.specs.Box.{sees};
ghost use Rattle.router.specs.State.{box_of, id_refusal};
ghost use Rattle.station.specs.Events.{Did};
ghost use Rattle.station.specs.Packets.{GoodFrom, seens_from, seens_of, seens_refusal, sights_in};
ghost use Rattle.station.specs.State.{RefusedBy, station_of};

use crate::answers::Refusal;
use crate::state::Station;
use messages::{Seens, WordId};
use router::Router;

// A neighbour shows that it has the word of these numbers, which isn't refused.
pub(crate) fn seen_one(router: Router, from: u8, id: WordId) -> Router
    requires { id_refusal from id (box_of router) ≡ None }
    ensures { box_of result ≡ sees from id.about id.count id.tag (box_of router) }
{
    router.seen(from, id).unwrap()
}

// It shows those of a packet.
fn seen_all(router: Router, from: u8, seens: Seens) -> Router
    requires { GoodFrom from seens.count seens.items (box_of router) }
    ensures { box_of result ≡ sees_all from (sights_in seens.count seens.items) (box_of router) }
{
    let shown = seens.held();
    let mut next = router;
    for id in shown {
        next = seen_one(next, from, *id);
    }
    next
}

impl Station {
    // A packet of seens comes on a wire. What carries another number than the last that was heard of its sender is of an earlier life, and shows nothing.
    pub fn hears_seens(self, wire: u8, seens: Seens) -> Result<Station, Refusal>
        ensures refused { RefusedBy (seens_refusal wire seens (station_of self)) result }
        ensures is { IfOk result (λ s. station_of s ≡ seens_from (teller wire (station_of self).links) (seens_of seens) (station_of self)) }
        ensures so { IfOk result (λ s. Did (station_of self) [] (station_of s)) }
    {
        let from = self.admits(wire, seens.count, seens.items)?;
        if seens.drawn != self.links.last(from) {
            return Ok(self);
        }
        let router = seen_all(self.router, from, seens);
        Ok(self.rejoined(self.links, router))
    }
}
