// The ends of wires.
ghost use Rattle.std.specs.Prelude.{◌≡◌};
ghost use Rattle.ground.specs.Wires.{place_of};

// One end of a wire: a box, and which of its wires it is.
#[derive(Clone, Copy, Debug, PartialEq, Eq)]
pub struct End {
    pub at: u8,
    pub wire: u8,
}

impl End {
    // Its place among the ends of all wires, eight for each of 64 boxes.
    pub(crate) fn place(self) -> Option<usize>
        ensures { result ≡ place_of self.at self.wire }
    {
        if self.at < 64 && self.wire < 8 {
            Some(usize::from(self.at) * 8 + usize::from(self.wire))
        } else {
            None
        }
    }
}

// The end of a wire that is across, and how many wires were laid before it.
#[derive(Clone, Copy, Debug, PartialEq, Eq)]
pub struct Plug {
    pub end: End,
    pub laid: u64,
}

// What becomes of a thing that goes out at an end: it gets across; the wire loses it; nothing is joined there.
#[derive(Clone, Copy, Debug, PartialEq, Eq)]
pub enum Carried {
    To(Plug),
    Lost(Plug),
    Nowhere,
}
