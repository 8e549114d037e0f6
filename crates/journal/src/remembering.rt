// What a memory answers.
ghost use Rattle.std.specs.Prelude.{◌≡◌};
ghost use Rattle.database.specs.State.{far_of, hop_of};
ghost use Rattle.journal.specs.State.{IsWord, distance_to, known_of, map_of, next_to};

use crate::memory::Memory;
use messages::Word;

impl Memory {
    // How many boxes there are, 0 before the first line.
    // Kept: a number here and in `number`, as the model has both. Before the first line of a book there is no box, so that the count is 0 and stands for nothing else,
    // and the number is that of no box; with an Option a caller that counts boxes would unwrap it to the same 0.
    pub fn boxes(&self) -> u8
        ensures { result ≡ (known_of self.now).n }
    {
        self.notes.n
    }

    // Which box's journal it is, 0 before the first line.
    pub fn number(&self) -> u8
        ensures { result ≡ (known_of self.now).me }
    {
        self.notes.me
    }

    // The last word of a box, none if it had none.
    pub fn word(&self, about: u8) -> Option<Word>
        ensures { IsWord about (known_of self.now) result }
    {
        Some(self.notes.words.word(about)).filter(|word| word.id.count != 0)
    }

    // What the road from a to e costs, 0 if not the words of both have it.
    pub fn road(&self, a: u8, e: u8) -> u16
        ensures { result ≡ (map_of (known_of self.now)).cost a e }
    {
        self.notes.words.road(a, e)
    }

    // How far a box is, nothing if no way leads there or there is no such box.
    pub fn distance(&self, to: u8) -> Option<u32>
        ensures { far_of result ≡ distance_to to (known_of self.now) }
    {
        self.table.distance(to)
    }

    // The next box towards another, nothing to itself, if no way leads there or there is no such box.
    pub fn next(&self, to: u8) -> Option<u8>
        ensures { hop_of result ≡ next_to to (known_of self.now) }
    {
        self.table.next(to)
    }
}
