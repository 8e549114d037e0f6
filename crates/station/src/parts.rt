// A box is put together from its wires and words, and asked for them.
ghost use Rattle.std.specs.Prelude.{◌≡◌, ◌<◌, ◌≤◌, None};
ghost use Rattle.hello.specs.State.{links_of};
ghost use Rattle.linkmodel.specs.Calls.{Joined};
ghost use Rattle.model.specs.Box.{hop_in, map_in};
ghost use Rattle.router.specs.State.{box_of, hop_of};
ghost use Rattle.station.specs.Parts.{parts_of};
ghost use Rattle.station.specs.State.{station_of, wire_open};

use crate::state::Station;
use hello::Links;
use router::Router;

impl Station {
    // These wires and words, with the table that belongs to the words.
    pub(crate) fn settled(links: Links, router: Router) -> Station
        requires { Joined (parts_of links router) }
        ensures { station_of result ≡ parts_of links router }
    {
        let table = router.table();
        Station {
            links,
            router,
            table,
        }
    }

    // These wires and words, where the words are those that it has: their table stays.
    pub(crate) fn rejoined(mut self, links: Links, router: Router) -> Station
        requires { (Joined (parts_of links router)) × ((map_in (box_of router) ≡ map_in (box_of self.router)) × ((box_of router).me ≡ (box_of self.router).me)) }
        ensures { station_of result ≡ parts_of links router }
    {
        self.links = links;
        self.router = router;
        self
    }

    // Its wires.
    pub fn links(self) -> Links
        ensures { links_of result ≡ (station_of self).links }
    {
        self.links
    }

    // Its roads and words.
    pub fn router(self) -> Router
        ensures { box_of result ≡ (station_of self).box }
    {
        self.router
    }

    // The next box towards another; none if there is no way, to itself, and to a number of no box.
    pub fn hands_on(&self, to: u8) -> Option<u8>
        ensures inside { to < (station_of self.now).box.n → hop_of result ≡ hop_in to (station_of self.now).box }
        ensures beyond { (station_of self.now).box.n ≤ to → result ≡ None }
    {
        self.table.next(to)
    }

    // The lowest wire over which the road to a box is open.
    pub fn open_wire(&self, to: u8) -> Option<u8>
        ensures { result ≡ wire_open to (station_of self.now).links }
    {
        self.links
            .wire_to(to)
            .filter(|wire| self.links.cost(*wire) > 0)
    }
}
