// The words that a box has, of itself and of the others, and those that it says.
ghost use Rattle.std.specs.Prelude.{◌≡◌, ℕ, ◌^◌, ◌<◌, false, not, ◌&&◌, List, ◌∷◌, IfOk, ◌==◌, nat_lt};
ghost use Rattle.bits.specs.Bits.{bit};
ghost use Rattle.messages.specs.Values.{at, entry_of};
ghost use Rattle.model.specs.Box.{Stands, has, must_say, own_word, says_now};
ghost use Rattle.model.specs.Words.{Ev, Says, is_in, world};
ghost use Rattle.router.specs.State.{RefusedBy, box_of, has_room, own_so_at, says_refusal, word_refusal};

use crate::answers::Refusal;
use crate::state::Router;
use messages::{Word, WordId};

// What is shown but for the words of box i.
fn cleared(shown: [u64; 64], i: u8) -> [u64; 64]
    ensures { (e j : ℕ) → bit (at result e) j ≡ (not (j == i) && bit (at shown e) j) }
{
    shown.map(|row| bits::without_bit(row, i))
}

impl Router {
    // From now on it has this word, which nobody has shown yet.
    pub(crate) fn has(mut self, word: Word) -> Router
        requires { word.id.about < 64 }
        ensures { box_of result ≡ has word.id.about (entry_of word) (box_of self) }
    {
        self.words.put(word);
        let shown = cleared(self.shown, word.id.about);
        self.shown = shown;
        self
    }

    // It says a word of itself whose count is one above this one.
    pub(crate) fn says_above(self, count: u64, tag: u64) -> Router
        requires { count < 2 ^ 63 }
        ensures { box_of result ≡ has self.me (own_word count tag (box_of self)) (box_of self) }
    {
        let id = WordId {
            about: self.me,
            count: count + 1,
            tag,
        };
        let costs = self.links;
        self.has(Word { id, costs })
    }

    // The count of its own word, 0 for none.
    fn count(&self) -> u64
        ensures { result ≡ ((box_of self.now).word self.now.me).number }
    {
        self.words.id_of(self.me).count
    }

    // Whether what it has said of its road to x is so; with no road open it need have said nothing.
    fn said_so(&self, x: u8) -> bool
        requires { x < 64 }
        ensures { result ≡ own_so_at (box_of self.now) x }
    {
        let cost = self.links[usize::from(x)];
        self.words.cost(self.me, x) == cost && (cost == 0 || self.count() > 0)
    }

    // Whether what it has said of itself isn't so any more.
    pub fn owes(self) -> bool
        ensures { result ≡ must_say (box_of self) }
    {
        (0..self.n).any(|x| !self.said_so(x))
    }

    // Whether its count leaves room for the next.
    fn has_room(self) -> bool
        ensures { result ≡ has_room (box_of self) }
    {
        self.count() < (1 << 63) - 1
    }

    // It says a new word of itself.
    pub fn says(self, tag: u64) -> Result<Router, Refusal>
        ensures refused { RefusedBy (says_refusal ((box_of self).word self.me).number) result }
        ensures is { IfOk result (λ s. box_of s ≡ says_now tag (box_of self)) }
        ensures so { IfOk result (λ s. (es : List Ev) → Stands (box_of self) es → is_in tag (world self.n es).drawn ≡ false → Stands (box_of s) (Says self.me tag ∷ es)) }
    {
        if self.has_room() {
            Ok(self.says_above(self.count(), tag))
        } else {
            Err(Refusal::CountSpent)
        }
    }

    // The numbers of the word that it has of a box; those of no word for a number of no box.
    pub fn id_of(self, about: u8) -> WordId
        ensures { result ≡ record { about = about; count = ((box_of self).word about).number; tag = ((box_of self).word about).tag } }
    {
        self.words.id_of(about)
    }

    // The word that it has of a box.
    pub fn word(self, about: u8) -> Result<Word, Refusal>
        ensures refused { RefusedBy (word_refusal about (box_of self)) result }
        ensures is { IfOk result (λ x. entry_of x ≡ (box_of self).word about) }
        ensures about { IfOk result (λ x. x.id.about ≡ about) }
    {
        if about >= self.n {
            return Err(Refusal::OutOfRange);
        }
        Ok(self.words.word(about))
    }

    // The boxes of which it has a word, as the bits of a number.
    pub fn had(self) -> u64
        ensures { (i : ℕ) → bit result i ≡ (nat_lt i self.n && nat_lt 0 ((box_of self).word i).number) }
    {
        (0..self.n)
            .filter(|i| self.words.id_of(*i).count > 0)
            .fold(0, |had, i| bits::with_bit(had, i))
    }
}
