// The state of a whole box.
ghost use Rattle.linkmodel.specs.Calls.{Joined};
ghost use Rattle.model.specs.Box.{map_in};
ghost use Rattle.router.specs.State.{box_of};
ghost use Rattle.station.specs.Parts.{parts_of};
ghost use Rattle.ways.specs.Table.{Found};

use database::RoutingTable;
use hello::Links;
use router::Router;

// `links`: the wires. `router`: the roads that they hold open, and the words. `table`: how far each box is by these words, and the next box towards it.
#[derive(Clone, Copy, Debug, PartialEq, Eq)]
pub struct Station {
    pub(crate) links: Links,
    pub(crate) router: Router,
    pub(crate) table: RoutingTable,
    ghost joined: { ∥ Joined (parts_of links router) ∥₁ },
    ghost ways: { ∥ Found (map_in (box_of router)) (box_of router).me table.far table.next ∥₁ },
}
