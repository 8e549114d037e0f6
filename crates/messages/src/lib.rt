// What boxes tell each other, as values: words and their numbers, hellos, and the settings of a box.
//
// It knows the model's word and nothing of bytes or of a box's state. It promises when a word is newer than another.
#![tactic(auto)]

mod packets;
mod values;

ghost use Rattle.messages.specs.Values.{low_count, newer_id, same_id};
ghost use Rattle.std.specs.Prelude.{◌≡◌};

pub use values::{Hello, Packet, Seens, Settings, Word, WordId, Words};

impl WordId {
    // Of two words of one box the newer has the larger count, or with equal counts the larger tag.
    pub fn is_newer_than(self, other: WordId) -> bool
        ensures { result ≡ newer_id self other }
    {
        (self.count, self.tag) > (other.count, other.tag)
    }

    // The same word: by count and tag.
    pub fn is_same_as(self, other: WordId) -> bool
        ensures { result ≡ same_id self other }
    {
        (self.count, self.tag) == (other.count, other.tag)
    }

    // Whether its count is below 2^63.
    pub fn is_counted(self) -> bool
        ensures { result ≡ low_count self }
    {
        self.count < 1 << 63
    }
}
