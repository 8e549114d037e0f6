// The state of a box.
ghost use Rattle.std.specs.Prelude.{◌<◌, ◌≤◌};

use database::Database;

// `links`: what the road to each box costs from here, 0 if none is open. `words`: the newest word of each box.
// `shown`: for each neighbour, a bit for each box of which it has shown that it has the same word.
// Kept: `links` and `shown` are arrays of their own, since `links` becomes the costs of the box's own word as it stands.
#[derive(Clone, Copy, Debug, PartialEq, Eq)]
pub struct Router {
    pub(crate) n: u8,
    pub(crate) me: u8,
    pub(crate) links: [u16; 64],
    pub(crate) words: Database,
    pub(crate) shown: [u64; 64],
    ghost few: { n ≤ 64 },
    ghost inside: { me < n },
}
