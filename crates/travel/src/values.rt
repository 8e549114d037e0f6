// A packet on its way, and what becomes of it at a box.
use ground::End;

// A packet on its way: the box that it is at, the wire of it over which it came there, or none from a house, and what its way cost so far, in how many steps.
#[derive(Clone, Copy, Debug, PartialEq, Eq)]
pub struct Traveller {
    pub at: u8,
    pub came: Option<u8>,
    pub cost: u32,
    pub steps: u8,
}

// What became of it at a box: it went on over this wire of the box, to this end; it came out to a house of the box; the box refused it; or the wire over which it went on lost it on its way to this box (the box itself where nothing is joined to the wire).
#[derive(Clone, Copy, Debug, PartialEq, Eq)]
pub enum Step {
    Onward(u8, End),
    Out,
    Refused,
    Lost(u8, u8),
}
