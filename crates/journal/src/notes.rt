// What the lines so far have noted.
ghost use Rattle.std.specs.Prelude.{◌-◌, ◌≤◌};

use database::Database;

// `words`: the word of each box. Before the first line there is no box, and `me` is 0.
#[derive(Clone, Copy, Debug, PartialEq, Eq)]
pub struct Notes {
    pub(crate) n: u8,
    pub(crate) me: u8,
    pub(crate) words: Database,
    ghost few: { n ≤ 64 },
    ghost inside: { me ≤ n - 1 },
}
