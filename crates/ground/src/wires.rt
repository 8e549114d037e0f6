// Wires are laid, taken away and asked for.
ghost use Rattle.std.specs.Prelude.{◌≡◌, ℕ, ◌+◌, ◌^◌, ◌<◌, ◌≤◌, true, false, None};
ghost use Rattle.model.specs.Words.{at2};
ghost use Rattle.netmodel.specs.Net.{is_there};
ghost use Rattle.ground.specs.Wires.{Between, Carries, Counts, Laid, LosesMore, Parted, WentOut, is_end, leads_to, laid_of, drawn_of, lost_at, plug_at, plug_if, plug_of};

use crate::ends::{Carried, End, Plug};
use crate::state::Ground;

impl Ground {
    // No wire is laid, and no number drawn.
    pub fn new() -> Ground
        ensures joined { (a w : ℕ) → plug_at result a w ≡ None }
        ensures losing { (a w : ℕ) → lost_at result a w ≡ 0 }
        ensures counts { Counts 0 0 result }
    {
        Ground {
            plugs: [None; 512],
            losing: [0; 512],
            laid: 0,
            drawn: 0,
        }
    }

    // What is across from an end.
    pub fn across(&self, end: End) -> Option<Plug>
        ensures { plug_if result ≡ plug_at self.now end.at end.wire }
    {
        match end.place() {
            Some(place) => self.plugs[place],
            None => None,
        }
    }

    // Whether the wire is still there over which something went out at an end, to this across from it.
    pub fn reaches(&self, from: End, over: Plug) -> bool
        ensures { result ≡ is_there (plug_at self.now from.at from.wire) (plug_of over) }
    {
        match self.across(from) {
            Some(plug) => plug.laid == over.laid,
            None => false,
        }
    }

    // Whether an end is joined to a box.
    fn leads_to(&self, end: End, e: u8) -> bool
        ensures { result ≡ leads_to e (plug_at self.now end.at end.wire) }
    {
        match self.across(end) {
            Some(plug) => plug.end.at == e,
            None => false,
        }
    }

    // The lowest wire of a box that is joined to another.
    pub fn between(&self, a: u8, e: u8) -> Option<End>
        ensures { Between a e self.now result }
    {
        for wire in 0..8u8 {
            let end = End { at: a, wire };
            if self.leads_to(end, e) {
                return Some(end);
            }
        }
        None
    }

    // What is across from an end becomes this, and nothing is lost there.
    fn put(&mut self, end: End, plug: Option<Plug>)
        ensures joined { is_end end.at end.wire ≡ true → (b u : ℕ) → plug_at self.new b u ≡ at2 end.at end.wire (plug_if plug) (plug_at self.old) b u }
        ensures losing { is_end end.at end.wire ≡ true → (b u : ℕ) → lost_at self.new b u ≡ at2 end.at end.wire 0 (lost_at self.old) b u }
        ensures counts { Counts (laid_of self.old) (drawn_of self.old) self.new }
        ensures beyond { is_end end.at end.wire ≡ false → self.new ≡ self.old }
    {
        if let Some(place) = end.place() {
            self.plugs[place] = plug;
            self.losing[place] = 0;
        }
    }

    // Nothing is across from an end, and nothing is lost there.
    fn clear(&mut self, end: End)
        ensures joined { (b u : ℕ) → plug_at self.new b u ≡ at2 end.at end.wire None (plug_at self.old) b u }
        ensures losing { (b u : ℕ) → lost_at self.new b u ≡ at2 end.at end.wire 0 (lost_at self.old) b u }
        ensures counts { Counts (laid_of self.old) (drawn_of self.old) self.new }
    {
        self.put(end, None);
    }

    // A wire is laid between two ends, and loses nothing. With an end that isn't there, or once 2^64 - 1 were laid, nothing changes.
    pub fn join(&mut self, one: End, other: End)
        ensures laid { is_end one.at one.wire ≡ true → is_end other.at other.wire ≡ true → laid_of self.old + 1 < 2 ^ 64 → Laid one.at one.wire other.at other.wire self.old self.new }
        ensures not_one { is_end one.at one.wire ≡ false → self.new ≡ self.old }
        ensures not_other { is_end other.at other.wire ≡ false → self.new ≡ self.old }
        ensures spent { 2 ^ 64 ≤ laid_of self.old + 1 → self.new ≡ self.old }
    {
        if one.place().is_none() || other.place().is_none() || self.laid == u64::MAX {
            return;
        }
        let laid = self.laid;
        self.put(other, Some(Plug { end: one, laid }));
        self.put(one, Some(Plug { end: other, laid }));
        self.laid = laid + 1;
    }

    // The wire with this end is gone, and with it what it was to lose.
    pub fn part(&mut self, end: End)
        ensures { Parted end.at end.wire self.old self.new }
    {
        if let Some(plug) = self.across(end) {
            self.clear(plug.end);
            self.clear(end);
        }
    }

    // So many of the next things that go out at an end are lost, besides those that are lost already.
    pub fn lose(&mut self, end: End, count: u32)
        ensures { LosesMore end.at end.wire count self.old self.new }
    {
        if let Some(place) = end.place() {
            self.losing[place] = self.losing[place].saturating_add(count);
        }
    }

    // One thing goes out at an end.
    pub fn carry(&mut self, from: End) -> Carried
        ensures carries { Carries (plug_at self.old from.at from.wire) (lost_at self.old from.at from.wire) result }
        ensures left { WentOut from.at from.wire self.old self.new }
    {
        let Some(plug) = self.across(from) else {
            return Carried::Nowhere;
        };
        if let Some(place) = from.place()
            && self.losing[place] > 0
        {
            self.losing[place] -= 1;
            return Carried::Lost(plug);
        }
        Carried::To(plug)
    }
}
