// What others may ask of the running box.
ghost use Rattle.std.specs.Prelude.{◌≡◌};
ghost use Rattle.hello.specs.State.{links_of};
ghost use Rattle.node.specs.State.{whole_of};
ghost use Rattle.router.specs.State.{box_of};

use crate::state::Node;
use hello::Links;
use router::Router;

impl Node {
    // Its roads and words.
    pub fn router(&self) -> Router
        ensures { box_of result ≡ (whole_of self.now).box }
    {
        self.station.router()
    }

    // Its wires.
    pub fn links(&self) -> Links
        ensures { links_of result ≡ (whole_of self.now).links }
    {
        self.station.links()
    }
}
