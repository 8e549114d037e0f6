// A box ticks.
ghost use Rattle.std.specs.Prelude.{◌≡◌, ℕ, ◌<◌, is_some, IfOk, None, slice_index_or};
ghost use Rattle.std.specs.Option.{unwrap_or};
ghost use Rattle.hello.specs.State.{hello_on, links_of, sent_as};
ghost use Rattle.linkmodel.specs.Calls.{expired};
ghost use Rattle.linkmodel.specs.Station.{says_if_owed, tick_out, ticks};
ghost use Rattle.station.specs.Events.{TellsDid, TickDid};
ghost use Rattle.station.specs.State.{RefusedBy, station_of};
ghost use Rattle.station.specs.Ticking.{Carries, goes_out, no_words, says_word, ticking_refusal, told_on};

use crate::answers::Refusal;
use crate::state::Station;
use hello::Links;
use messages::{Hello, Words};

// What a tick did: the new state, whether the box said a word, and for each wire the hello and the words that go out on it. A packet of no words doesn't go out.
// Kept: a hello has an Option, since nothing in it says that there is none; a packet's count says so, and who sends it asks the count where it would ask the Option.
#[derive(Clone, Copy, Debug, PartialEq, Eq)]
pub struct Ticked {
    pub station: Station,
    pub said: bool,
    pub hellos: [Option<Hello>; 8],
    pub words: [Words; 8],
}

// The hello that goes out on each wire, if one does.
fn all_hellos(links: Links) -> [Option<Hello>; 8]
    ensures { (w : ℕ) → w < 8 → sent_as (slice_index_or result w None) ≡ hello_on w (links_of links) }
{
    std::array::from_fn(|w| links.hello_on(w as u8))
}

impl Station {
    // After what is too old was dropped, it says a word if it owes one; none where it says none.
    fn says_owed(self, tag: u64) -> Option<Station>
        ensures said { is_some result ≡ says_word (station_of self).box }
        ensures links { (station_of (unwrap_or result self)).links ≡ (station_of self).links }
        ensures is { (station_of (unwrap_or result self)).box ≡ says_if_owed tag (station_of self).box }
    {
        let router = telling::says_owed(self.router, tag)?;
        Some(Station::settled(self.links, router))
    }

    // One tick passes: what is too old is dropped, a word is said if one is owed, and hellos and words go out.
    pub fn tick(self, tag: u64) -> Result<Ticked, Refusal>
        ensures refused { RefusedBy (ticking_refusal (station_of self)) result }
        ensures is { IfOk result (λ t. station_of t.station ≡ ticks tag (station_of self)) }
        ensures said { IfOk result (λ t. t.said ≡ says_word (expired (station_of self))) }
        ensures hellos { IfOk result (λ t. (w : ℕ) → w < 8 → sent_as (slice_index_or t.hellos w None) ≡ hello_on w (station_of t.station).links) }
        ensures words { IfOk result (λ t. (w : ℕ) → w < 8 → Carries (slice_index_or t.words w no_words) (station_of t.station).links.drawn (told_on w (station_of t.station))) }
        ensures so { IfOk result (λ t. TickDid tag (station_of self) (station_of t.station)) }
        ensures tells { IfOk result (λ t. TellsDid (station_of t.station)) }
        ensures out { IfOk result (λ t. goes_out t.hellos t.words (station_of t.station) ≡ tick_out (station_of t.station)) }
    {
        let links = self.links.tick()?;
        let aged = self.relinked(links);
        let said = aged.says_owed(tag);
        let station = said.unwrap_or(aged);
        Ok(Ticked {
            station,
            said: said.is_some(),
            hellos: all_hellos(station.links),
            words: station.all_words(),
        })
    }
}
