// How far each box is, and the next box towards it.
ghost use Rattle.std.specs.Prelude.{◌≡◌};
ghost use Rattle.database.specs.State.{FarBy, NextBy, distance_in, far_of, hop_of, next_in};

// `far`, `next`: a distance and a next box for each box, as `ways` fills them.
// Kept: two arrays of numbers, since `ways` fills slices of plain numbers, as its C interface has them.
#[derive(Clone, Copy, Debug, PartialEq, Eq)]
pub struct RoutingTable {
    pub(crate) far: [u32; 64],
    pub(crate) next: [u8; 64],
}

impl RoutingTable {
    // How far a box is; nothing if no way leads there.
    pub fn distance(&self, to: u8) -> Option<u32>
        ensures is { far_of result ≡ distance_in to self.now }
        ensures found { FarBy to self.now (far_of result) }
    {
        self.far
            .get(usize::from(to))
            .copied()
            .filter(|far| *far != ways::NEVER)
    }

    // The next box towards another; nothing if no way leads there, and to the box itself.
    pub fn next(&self, to: u8) -> Option<u8>
        ensures is { hop_of result ≡ next_in to self.now }
        ensures found { NextBy to self.now (hop_of result) }
    {
        self.next
            .get(usize::from(to))
            .copied()
            .filter(|next| *next != ways::NONE)
    }
}
