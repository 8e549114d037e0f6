// The steps of one wire.
ghost use Rattle.std.specs.Prelude.{◌≡◌, if◌then◌else◌, nat_eq};
ghost use Rattle.hello.specs.State.{wire_of};
ghost use Rattle.linkmodel.specs.Links.{Silent as Unheard, aged, closed_to, heard_on, opens_to, taken, who_on};

use crate::state::{Contact, Wire};

// For how many ticks what was heard holds.
const HOLDS_FOR: u64 = 40;

impl Wire {
    // What is too old is forgotten.
    pub(crate) fn aged(self, now: u32) -> Wire
        ensures { wire_of result ≡ aged now (wire_of self) }
    {
        match self {
            Wire::Heard(c) | Wire::Open(c) if u64::from(c.when) + HOLDS_FOR < u64::from(now) => {
                Wire::Silent
            }
            _ => self,
        }
    }

    // The road to box `e` is open over it no more; that it was heard stays.
    pub(crate) fn closed_to(self, e: u8) -> Wire
        ensures { wire_of result ≡ closed_to e (wire_of self) }
    {
        match self {
            Wire::Open(c) if c.from == e => Wire::Heard(c),
            _ => self,
        }
    }

    // It is forgotten if it has no cost.
    pub(crate) fn costed(self, cost: u16) -> Wire
        ensures { wire_of result ≡ (if nat_eq cost 0 then Unheard else wire_of self) }
    {
        if cost == 0 { Wire::Silent } else { self }
    }

    // Whether the road to box `e` is open over it.
    pub(crate) fn opens_to(self, e: u8) -> bool
        ensures { result ≡ opens_to e (wire_of self) }
    {
        matches!(self, Wire::Open(c) if c.from == e)
    }

    // Whether a road to another box than `e` is.
    pub(crate) fn taken(self, e: u8) -> bool
        ensures { result ≡ taken e (wire_of self) }
    {
        matches!(self, Wire::Open(c) if c.from != e)
    }

    // The drawn number that was heard on it, 0 if none.
    pub(crate) fn heard(self) -> u64
        ensures { result ≡ heard_on (wire_of self) }
    {
        match self {
            Wire::Silent => 0,
            Wire::Heard(c) | Wire::Open(c) => c.drawn,
        }
    }

    // Who was heard on it.
    pub(crate) fn who(self) -> Option<u8>
        ensures { result ≡ who_on (wire_of self) }
    {
        match self {
            Wire::Silent => None,
            Wire::Heard(c) | Wire::Open(c) => Some(c.from),
        }
    }
}
