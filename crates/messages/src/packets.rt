// What a packet holds.
ghost use Rattle.messages.specs.Values.{ids_of};
ghost use Rattle.std.specs.Prelude.{◌≡◌, take};

use crate::values::{Packet, Word, WordId};

// The first `count` of these, or all where there are fewer.
fn front<T>(items: &[T], count: u8) -> &[T]
    ensures { result.now ≡ take count items.now }
{
    &items[..usize::from(count).min(items.len())]
}

impl<T> Packet<T> {
    // What it holds: the first `count`, or all four where that says more.
    pub fn held(&self) -> &[T]
        ensures { result.now ≡ take self.now.count self.now.items }
    {
        front(&self.items, self.count)
    }
}

impl Packet<Word> {
    // The numbers of its words, and those of no word after them.
    pub fn ids(&self) -> [WordId; 4]
        ensures { result ≡ ids_of self.now.items }
    {
        self.items.map(|word| word.id)
    }
}
