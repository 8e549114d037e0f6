// What frames and journal lines hold.
use messages::{Hello, Seens, Word, Words};

// What a wire carries.
#[derive(Clone, Copy, Debug, PartialEq, Eq)]
pub enum Frame<'a> {
    Hello(Hello),
    Words(Words),
    Seen(Seens),
    Packet(&'a [u8]),
}

// What the journal says of one tick: the box began or fell, with how many boxes there are and which it is; it said a word; it took one; it refused a frame for a fault.
// Kept: a fault by its number, since a line may hold any number, and reading a journal refuses none.
#[derive(Clone, Copy, Debug, PartialEq, Eq)]
pub enum Entry {
    Began(u8, u8),
    Said(Word),
    Taken(Word),
    Refused(u8),
}

#[derive(Clone, Copy, Debug, PartialEq, Eq)]
pub struct Line {
    pub tick: u32,
    pub what: Entry,
}
