// The values themselves.

// The numbers of a word: whose it is, which of its words, and the tag drawn for it.
#[derive(Clone, Copy, Debug, PartialEq, Eq, Default)]
pub struct WordId {
    pub about: u8,
    pub count: u64,
    pub tag: u64,
}

// What a box said of itself: its numbers, and what the road to each box costs from it, 0 for none.
#[derive(Clone, Copy, Debug, PartialEq, Eq, Default)]
pub struct Word {
    pub id: WordId,
    pub costs: [u16; 64],
}

// A packet of one to four words, or of the numbers of such: the first `count` of `items`, with the drawn number of the box that sends them. Those past `count` are all zeros.
// Kept: a count beside four places, since a box takes a packet of any count and refuses one of none or of more than four, and a type of at most four would ask more of who calls it.
#[derive(Clone, Copy, Debug, PartialEq, Eq)]
pub struct Packet<T> {
    pub drawn: u64,
    pub count: u8,
    pub items: [T; 4],
}

// Words that are told.
pub type Words = Packet<Word>;

// The numbers of words that were seen.
pub type Seens = Packet<WordId>;

// A hello: who sends it, the number it drew when it was switched on or last fell, and the drawn number it heard on this wire, 0 for none.
#[derive(Clone, Copy, Debug, PartialEq, Eq)]
pub struct Hello {
    pub from: u8,
    pub drawn: u64,
    pub heard: u64,
}

// How many boxes there are, which of them this is, and what each of its wires costs, 0 for none.
// Kept: 0 for a wire that there is not. So it is of a road that isn't open (`Word`, `Links`, `Router`, `Database`), of a word that was never said (the count of a `WordId`) and of a drawn number that was not heard (`Hello`, `Links`):
// the model, which every contract names, has 0 for none in its costs, words and numbers, and costs, counts and drawn numbers themselves are never 0.
#[derive(Clone, Copy, Debug, PartialEq, Eq)]
pub struct Settings {
    pub boxes: u8,
    pub me: u8,
    pub costs: [u16; 8],
}
