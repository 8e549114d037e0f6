// The least ways by the words that a box has, and the next box on one.
ghost use Rattle.std.specs.Prelude.{◌≡◌, ◌<◌, ◌≤◌};
ghost use Rattle.model.specs.Box.{hop_in, map_in};
ghost use Rattle.router.specs.State.{box_of, hop_of};
ghost use Rattle.ways.specs.Table.{Found};

use crate::state::Router;
use database::RoutingTable;

impl Router {
    // How far each box is by its words, and the next box towards each.
    pub fn table(self) -> RoutingTable
        ensures { Found (map_in (box_of self)) self.me result.far result.next }
    {
        self.words.ways(self.n, self.me)
    }

    // The next box towards another; none if there is no way, to itself, and to a number of no box.
    pub fn hands_on(self, to: u8) -> Option<u8>
        ensures inside { to < self.n → hop_of result ≡ hop_in to (box_of self) }
        ensures beyond { self.n ≤ to → result ≡ None }
    {
        if to >= self.n {
            return None;
        }
        self.table().next(to)
    }
}
