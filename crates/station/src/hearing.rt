// A packet of words comes.
ghost use Rattle.std.specs.Prelude.{◌≡◌, ℕ, ◌<◌, take, IfOk, None, ◌==◌, slice_index_or};
ghost use Rattle.hello.specs.State.{links_of};
ghost use Rattle.linkmodel.specs.Station.{answers, heard_words, news_for, seens_for, teller, wire_to};
ghost use Rattle.linkmodel.specs.Links.{road_cost};
ghost use Rattle.messages.specs.Values.{ids_of};
ghost use Rattle.station.specs.Events.{AnswersDid, WordsDid};
ghost use Rattle.station.specs.Hearing.{Showing, answer_on, answers_from, outcomes_from, outcomes_in, wire_back, words_from, words_refusal};
ghost use Rattle.station.specs.Packets.{GoodFrom};
ghost use Rattle.station.specs.State.{RefusedBy, station_of};
ghost use Rattle.station.specs.Ticking.{Carries, bundle_of};

use crate::answers::Refusal;
use crate::state::Station;
use crate::taking;
use hello::Links;
use messages::{Seens, Words};
use router::Outcome;

// What a packet of words did: the new state, the answers and the wire that they go out on, and what became of each word. A packet of none doesn't go out.
// Kept: no Option around a packet, since it is filled from none on, and who sends it asks its count where it would ask the Option.
#[derive(Clone, Copy, Debug, PartialEq, Eq)]
pub struct Heard {
    pub station: Station,
    pub wire: u8,
    pub seens: Seens,
    pub words: Words,
    pub outcomes: [Option<Outcome>; 4],
}

// The lowest wire over which the road to a box is open, if it is open at all.
fn lowest(links: Links, to: u8) -> u8
    requires { 0 < road_cost to (links_of links) }
    ensures { result ≡ wire_to to (links_of links) }
{
    links.wire_to(to).unwrap()
}

impl Station {
    // A packet that isn't refused: its words are taken first, and the answers are of what the box has then.
    fn heard(self, from: u8, words: Words, tags: [u64; 4]) -> Heard
        requires { GoodFrom from words.count (ids_of words.items) (station_of self).box }
        ensures is { station_of result.station ≡ heard_words from (bundle_of words) (take words.count tags) (station_of self) }
        ensures wire { result.wire ≡ wire_to from (station_of result.station).links }
        ensures seens { Showing result.seens (station_of result.station).links.drawn (seens_for (bundle_of words).items (station_of result.station).box) }
        ensures words { Carries result.words (station_of result.station).links.drawn (news_for (bundle_of words).items (station_of result.station).box) }
        ensures outcomes { (j : ℕ) → slice_index_or result.outcomes j None ≡ slice_index_or (outcomes_in (words.drawn == (station_of self).links.last from) from words.count words.items tags (station_of self).box) j None }
        ensures out { answer_on result.wire result.seens result.words ≡ answers from (bundle_of words) (station_of result.station) }
    {
        let fits = words.drawn == self.links.last(from);
        let (router, outcomes) = taking::hear_all(self.router, from, words, tags, fits);
        let station = Station::settled(self.links, router);
        Heard {
            station,
            wire: lowest(station.links, from),
            seens: station.seens_for(words),
            words: station.news_for(words),
            outcomes,
        }
    }

    // A packet of words comes on a wire, with a tag for each of them, drawn for the word that it may make the box say.
    pub fn hears_words(self, wire: u8, words: Words, tags: [u64; 4]) -> Result<Heard, Refusal>
        ensures refused { RefusedBy (words_refusal wire words (station_of self)) result }
        ensures is { IfOk result (λ h. station_of h.station ≡ words_from (teller wire (station_of self).links) (bundle_of words) (take words.count tags) (station_of self)) }
        ensures wire { IfOk result (λ h. h.wire ≡ wire_back (teller wire (station_of self).links) (station_of h.station).links) }
        ensures seens { IfOk result (λ h. Showing h.seens (station_of h.station).links.drawn (seens_for (bundle_of words).items (station_of h.station).box)) }
        ensures words { IfOk result (λ h. Carries h.words (station_of h.station).links.drawn (news_for (bundle_of words).items (station_of h.station).box)) }
        ensures outcomes { IfOk result (λ h. (j : ℕ) → slice_index_or h.outcomes j None ≡ slice_index_or (outcomes_from (teller wire (station_of self).links) words tags (station_of self)) j None) }
        ensures so { IfOk result (λ h. WordsDid wire (bundle_of words) (take words.count tags) (station_of self) (station_of h.station)) }
        ensures sends { IfOk result (λ h. AnswersDid wire (bundle_of words) (station_of h.station)) }
        ensures out { IfOk result (λ h. answer_on h.wire h.seens h.words ≡ answers_from (teller wire (station_of self).links) (bundle_of words) (station_of h.station)) }
    {
        let from = self.admits(wire, words.count, words.ids())?;
        Ok(self.heard(from, words, tags))
    }
}
