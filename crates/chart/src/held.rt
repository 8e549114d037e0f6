// What boxes have of one: the word that each has, and the newest of them.
ghost use Rattle.std.specs.Prelude.{◌≡◌};
ghost use Rattle.messages.specs.Values.{newer_id};
ghost use Rattle.journal.specs.State.{known_of};
ghost use Rattle.chart.specs.Holding.{Newest, held_in, goes_before};

use journal::Memory;
use messages::WordId;

// The numbers of the word that the box `by` has, with count 0 and tag 0 for none.
// Kept: no Option, since the model's word of a box that never said one has count 0 too, and no word that was said has it: a box without one is behind each that has
// one by the comparisons themselves, with no case of its own.
#[derive(Clone, Copy, Debug, PartialEq, Eq)]
pub struct Held {
    pub by: u8,
    pub word: WordId,
}

impl Held {
    // What a journal's box has of a box.
    pub fn of(memory: &Memory, about: u8) -> Held
        ensures { result ≡ held_in about (known_of memory.now) }
    {
        let none = WordId {
            about,
            ..WordId::default()
        };
        let word = memory.word(about).map_or(none, |word| word.id);
        Held {
            by: memory.number(),
            word,
        }
    }

    // Newer, or the same at a lower box.
    // Kept: what two boxes have of a third compares by count and tag, the newer first, and only then by the box that has it, the lower first: no order derived from the fields is this one.
    fn goes_before(self, other: Held) -> bool
        ensures { result ≡ goes_before self other }
    {
        self.word.is_newer_than(other.word)
            || (self.word.is_same_as(other.word) && self.by < other.by)
    }

    // Does another have a newer word than this?
    pub fn lacks(self, other: Held) -> bool
        ensures { result ≡ newer_id other.word self.word }
    {
        other.word.is_newer_than(self.word)
    }
}

// The newest of what several boxes have of one, at the lowest box that has it.
pub fn newest(first: Held, others: &[Held]) -> Held
    ensures { Newest first others.now result }
{
    others.iter().fold(first, |best, held| {
        if held.goes_before(best) { *held } else { best }
    })
}
