// The words that go to a neighbour at a tick.
ghost use Rattle.std.specs.Prelude.{◌≡◌, ℕ, ◌<◌, [], ◌==◌, slice_index_or};
ghost use Rattle.hello.specs.State.{links_of};
ghost use Rattle.linkmodel.specs.Station.{items_of, wire_to};
ghost use Rattle.model.specs.Box.{tells};
ghost use Rattle.router.specs.State.{box_of};
ghost use Rattle.station.specs.State.{station_of};
ghost use Rattle.station.specs.Ticking.{Carries, item_of, no_words, told_on};

use crate::state::Station;
use hello::Links;
use messages::{Word, Words};
use router::Router;

// After how many ticks telling goes out again.
const TELLS_EVERY: u32 = 5;

// A packet of no words.
pub(crate) fn empty(drawn: u64) -> Words
    ensures { Carries result drawn [] }
{
    Words {
        drawn,
        count: 0,
        items: [Word::default(); 4],
    }
}

// The word that it has of a box.
pub(crate) fn word_of(router: Router, about: u8) -> Word
    requires { about < (box_of router).n }
    ensures { item_of result ≡ record { about = about; entry = (box_of router).word about } }
{
    router.word(about).unwrap()
}

// Whether a wire is the lowest over which the road to a box is open.
fn is_lowest(links: Links, to: u8, wire: u8) -> bool
    requires { wire < 8 }
    ensures { result ≡ (wire_to to (links_of links) == wire) }
{
    links.wire_to(to) == Some(wire)
}

impl Station {
    // The words that it tells a neighbour.
    pub(crate) fn telling_to(&self, to: u8) -> Words
        ensures { Carries result (station_of self.now).links.drawn (items_of (tells to (station_of self.now).box) (station_of self.now).box) }
    {
        let picked = telling::tells(self.router, to);
        let abouts = picked.places();
        let mut items = [Word::default(); 4];
        for (k, about) in abouts.iter().enumerate() {
            items[k] = word_of(self.router, *about);
        }
        Words {
            drawn: self.links.drawn(),
            count: picked.count,
            items,
        }
    }

    // The words that go out on a wire: those for the box to which it is the lowest open wire, when it is time to tell.
    fn words_on(&self, wire: u8) -> Words
        requires { wire < 8 }
        ensures { Carries result (station_of self.now).links.drawn (told_on wire (station_of self.now)) }
    {
        let drawn = self.links.drawn();
        if self.links.now() % TELLS_EVERY != 0 {
            return empty(drawn);
        }
        match self.links.who(wire) {
            Some(to) if is_lowest(self.links, to, wire) => self.telling_to(to),
            _ => empty(drawn),
        }
    }

    // The same for each wire.
    pub(crate) fn all_words(&self) -> [Words; 8]
        ensures { (w : ℕ) → w < 8 → Carries (slice_index_or result w no_words) (station_of self.now).links.drawn (told_on w (station_of self.now)) }
    {
        std::array::from_fn(|w| self.words_on(w as u8))
    }
}
