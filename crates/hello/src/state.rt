// What a box knows of its wires.
ghost use Rattle.std.specs.Prelude.{◌<◌, ◌≤◌};

// Who was heard, under which drawn number and at which tick.
#[derive(Clone, Copy, Debug, PartialEq, Eq)]
pub struct Contact {
    pub(crate) from: u8,
    pub(crate) drawn: u64,
    pub(crate) when: u32,
}

// A wire on which nobody was heard, or who was, with no road over it or with one.
#[derive(Clone, Copy, Debug, PartialEq, Eq)]
pub enum Wire {
    Silent,
    Heard(Contact),
    Open(Contact),
}

// Box `me` of `n`, the number that it drew, and how often it ticked. `costs`: what each wire costs, 0 if there is none.
// `last`: the drawn number of the last hello taken from each box, on any wire, 0 if there was none.
// Kept: `costs` and `wires` are arrays of their own: the costs come whole with the settings and stay over a fall, which clears the wires.
#[derive(Clone, Copy, Debug, PartialEq, Eq)]
pub struct Links {
    pub(crate) n: u8,
    pub(crate) me: u8,
    pub(crate) drawn: u64,
    pub(crate) tick: u32,
    pub(crate) costs: [u16; 8],
    pub(crate) wires: [Wire; 8],
    pub(crate) last: [u64; 64],
    ghost few: { n ≤ 64 },
    ghost inside: { me < n },
}
