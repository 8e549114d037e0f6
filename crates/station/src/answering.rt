// What is answered to a packet of words: seens of those that the box has just so, and its own words where they are newer.
ghost use Rattle.std.specs.Prelude.{◌≡◌, false};
ghost use Rattle.linkmodel.specs.Station.{news_for, seens_for};
ghost use Rattle.messages.specs.Values.{ids_of};
ghost use Rattle.station.specs.Hearing.{Showing};
ghost use Rattle.station.specs.Packets.{any_in, is_out};
ghost use Rattle.station.specs.State.{station_of};
ghost use Rattle.station.specs.Ticking.{Carries, words_in};

use crate::state::Station;
use crate::tellings;
use messages::{Seens, WordId, Words};

impl Station {
    // Of these words, those that it has just so.
    pub(crate) fn seens_for(self, words: Words) -> Seens
        ensures { Showing result (station_of self).links.drawn (seens_for (words_in words.count words.items) (station_of self).box) }
    {
        let told = words.held();
        let mut seens = Seens {
            drawn: self.links.drawn(),
            count: 0,
            items: [WordId::default(); 4],
        };
        for word in told {
            let id = word.id;
            if id.is_same_as(self.router.id_of(id.about)) {
                seens.items[seens.count as usize] = id;
                seens.count += 1;
            }
        }
        seens
    }

    // And those of which it has a newer one, as it has them.
    // Kept: a second loop of this shape, since one for both would hand out a count beside an array of a type parameter and say in its contract what a closure answers to each word, and then both callers would put the packet together: that is longer.
    pub(crate) fn news_for(self, words: Words) -> Words
        requires { any_in (is_out (station_of self).box.n) words.count (ids_of words.items) ≡ false }
        ensures { Carries result (station_of self).links.drawn (news_for (words_in words.count words.items) (station_of self).box) }
    {
        let told = words.held();
        let mut news = tellings::empty(self.links.drawn());
        for word in told {
            let id = word.id;
            if self.router.id_of(id.about).is_newer_than(id) {
                news.items[news.count as usize] = tellings::word_of(self.router, id.about);
                news.count += 1;
            }
        }
        news
    }
}
