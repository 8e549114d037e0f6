// A box is switched on, hears a hello, gets other settings and falls.
ghost use Rattle.std.specs.Prelude.{◌≡◌, ℕ, ◌<◌, not, [], ◌∷◌, IfOk, ◌==◌};
ghost use Rattle.bits.specs.Bits.{bit};
ghost use Rattle.hello.specs.State.{greeting_of, links_of};
ghost use Rattle.linkmodel.specs.Links.{fell, hears_hello, relinks, rewired, road_cost};
ghost use Rattle.linkmodel.specs.Relinked.{Sound};
ghost use Rattle.linkmodel.specs.Station.{falls, has_costs, heard_hello, relink_as, station};
ghost use Rattle.messages.specs.Values.{at};
ghost use Rattle.model.specs.Box.{Stands};
ghost use Rattle.model.specs.Words.{Falls};
ghost use Rattle.station.specs.Events.{Did};
ghost use Rattle.station.specs.State.{RefusedBy, begin_refusal, falls_refusal, hello_refusal, rewire_refusal, station_of};

use crate::answers::Refusal;
use crate::state::Station;
use hello::Links;
use messages::{Hello, Settings};
use router::Router;

// What the road to each box costs over these wires.
fn all_roads(links: Links) -> [u16; 64]
    ensures { (e : ℕ) → e < 64 → at result e ≡ road_cost e (links_of links) }
{
    std::array::from_fn(|e| links.road(e as u8))
}

// The boxes of which another drawn number was heard.
fn heard_anew(before: Links, after: Links) -> u64
    ensures { (e : ℕ) → e < 64 → bit result e ≡ not ((links_of before).last e == (links_of after).last e) }
{
    (0..64)
        .filter(|e| before.last(*e) != after.last(*e))
        .fold(0, |anew, e| bits::with_bit(anew, e))
}

impl Station {
    // Box `me` of `n`, with no wires yet.
    pub fn new(n: u8, me: u8, drawn: u64) -> Result<Station, Refusal>
        ensures refused { RefusedBy (begin_refusal n me drawn) result }
        ensures is { IfOk result (λ s. station_of s ≡ station n me drawn) }
        ensures so { IfOk result (λ s. Stands (station_of s).box []) }
    {
        let links = Links::new(n, me, drawn)?;
        let router = Router::begin(n, me)?;
        Ok(Station::settled(links, router))
    }

    // Its wires are these now, and its roads with them.
    pub(crate) fn relinked(self, links: Links) -> Station
        requires { (Sound (links_of links)) × (((links_of links).n ≡ (station_of self).links.n) × ((links_of links).me ≡ (station_of self).links.me)) }
        ensures { station_of result ≡ relink_as (links_of links) (station_of self) }
    {
        let roads = all_roads(links);
        let anew = heard_anew(self.links, links);
        self.rejoined(links, self.router.relink(roads, anew))
    }

    // A hello comes on a wire; on one without a cost it is dropped.
    pub fn hears_hello(self, wire: u8, hello: Hello) -> Result<Station, Refusal>
        ensures refused { RefusedBy (hello_refusal wire (greeting_of hello) (station_of self)) result }
        ensures is { IfOk result (λ s. station_of s ≡ heard_hello wire (greeting_of hello) (station_of self)) }
        ensures so { IfOk result (λ s. Did (station_of self) (relinks (station_of self).links (hears_hello wire (greeting_of hello) (station_of self).links) (station_of self).box.n) (station_of s)) }
    {
        let links = self.links.hears(wire, hello)?;
        Ok(self.relinked(links))
    }

    // The wires cost what the settings say.
    pub fn rewire(self, settings: Settings) -> Result<Station, Refusal>
        ensures refused { RefusedBy (rewire_refusal settings (station_of self)) result }
        ensures is { IfOk result (λ s. station_of s ≡ has_costs (at settings.costs) (station_of self)) }
        ensures so { IfOk result (λ s. Did (station_of self) (relinks (station_of self).links (rewired (at settings.costs) (station_of self).links) (station_of self).box.n) (station_of s)) }
    {
        let links = self.links.rewire(settings)?;
        Ok(self.relinked(links))
    }

    // It falls, and draws a new number: its roads close, and all that it knew is gone.
    pub fn falls(self, drawn: u64) -> Result<Station, Refusal>
        ensures refused { RefusedBy (falls_refusal drawn) result }
        ensures is { IfOk result (λ s. station_of s ≡ falls drawn (station_of self)) }
        ensures so { IfOk result (λ s. Did (station_of self) (Falls (station_of self).box.me ∷ relinks (station_of self).links (fell drawn (station_of self).links) (station_of self).box.n) (station_of s)) }
    {
        let links = self.links.falls(drawn)?;
        Ok(Station::settled(links, self.router.falls()))
    }
}
