// What a box is told and shown by its neighbours.
ghost use Rattle.std.specs.Prelude.{◌≡◌, ℕ, ◌^◌, ◌<◌, false, List, ◌∷◌, IfOk};
ghost use Rattle.bits.specs.Bits.{bit};
ghost use Rattle.messages.specs.Values.{told_by};
ghost use Rattle.model.specs.Box.{Stands, hears, sees, takes};
ghost use Rattle.model.specs.Code.{nth_is};
ghost use Rattle.model.specs.Words.{Comes, Ev, is_in, world};
ghost use Rattle.router.specs.State.{RefusedBy, box_of, hears_refusal, id_refusal, outcome_of};

use crate::answers::{Outcome, Refusal};
use crate::state::Router;
use messages::{Word, WordId};

impl Router {
    // The boxes of which a neighbour has shown that it has the same word, as the bits of a number.
    pub fn shown_by(self, by: u8) -> u64
        ensures { (i : ℕ) → bit result i ≡ (box_of self).shown by i }
    {
        self.shown.get(usize::from(by)).copied().unwrap_or(0)
    }

    // Whether a neighbour has shown that it has the same word of a box.
    pub fn shown(self, by: u8, about: u8) -> bool
        ensures { result ≡ (box_of self).shown by about }
    {
        bits::has_bit(self.shown_by(by), about)
    }

    // Refuses some numbers of a word, or of a seen, that `from` tells.
    fn allows_id(self, from: u8, id: WordId) -> Result<(), Refusal>
        ensures { RefusedBy (id_refusal from id (box_of self)) result }
    {
        if from >= self.n || id.about >= self.n || id.count == 0 {
            return Err(Refusal::OutOfRange);
        }
        if !self.is_open(from) {
            return Err(Refusal::NoRoad);
        }
        if !id.is_counted() {
            return Err(Refusal::CountSpent);
        }
        Ok(())
    }

    // Kept: numbers below 64, here and in `outcome`, `taken` and `has`, all called where `allows_id` has let them through. A type for such a number would be made there and taken apart here.
    // Marks that a neighbour has the word of these numbers, if the road to it is open and the box has just that word.
    fn marked(mut self, from: u8, id: WordId) -> Router
        requires { (from < 64) × (id.about < 64) }
        ensures { box_of result ≡ sees from id.about id.count id.tag (box_of self) }
    {
        if self.is_open(from) && self.id_of(id.about).is_same_as(id) {
            self.shown[from as usize] = bits::with_bit(self.shown[from as usize], id.about);
        }
        self
    }

    // A neighbour shows that it has the word of these numbers.
    pub fn seen(self, from: u8, id: WordId) -> Result<Router, Refusal>
        ensures refused { RefusedBy (id_refusal from id (box_of self)) result }
        ensures is { IfOk result (λ s. box_of s ≡ sees from id.about id.count id.tag (box_of self)) }
        ensures so { IfOk result (λ s. (es : List Ev) → Stands (box_of self) es → Stands (box_of s) es) }
    {
        self.allows_id(from, id)?;
        Ok(self.marked(from, id))
    }

    // What becomes of a word that `from` tells.
    fn outcome(self, from: u8, word: Word) -> Outcome
        requires { word.id.about < 64 }
        ensures { result ≡ outcome_of from word (box_of self) }
    {
        let has = self.id_of(word.id.about);
        if self.is_open(from) && word.id.is_newer_than(has) {
            if self.me == word.id.about {
                Outcome::Said
            } else {
                Outcome::Taken
            }
        } else if word.id.is_same_as(has) {
            Outcome::Same
        } else {
            Outcome::Older
        }
    }

    // Refuses a word that `from` tells as its numbers, and also if the box would have to say a count of 2^63.
    fn allows_word(self, from: u8, word: Word) -> Result<(), Refusal>
        ensures { RefusedBy (hears_refusal from word (box_of self)) result }
    {
        self.allows_id(from, word.id)?;
        let spent = word.id.count >= (1 << 63) - 1;
        if spent && self.outcome(from, word) == Outcome::Said {
            return Err(Refusal::CountSpent);
        }
        Ok(())
    }

    // A word comes: a newer one is taken, but about itself the box says anew, above it.
    fn taken(self, from: u8, word: Word, tag: u64) -> (Router, Outcome)
        requires { (word.id.about < 64) × (word.id.count < 2 ^ 63) }
        ensures is { box_of result.0 ≡ takes (told_by from self.me word) tag (box_of self) }
        ensures outcome { result.1 ≡ outcome_of from word (box_of self) }
    {
        let outcome = self.outcome(from, word);
        let router = match outcome {
            Outcome::Taken => self.has(word),
            Outcome::Said => self.says_above(word.id.count, tag),
            Outcome::Same | Outcome::Older => self,
        };
        (router, outcome)
    }

    // A word comes, and isn't counted as shown by who tells it.
    pub fn takes(self, from: u8, word: Word, tag: u64) -> Result<(Router, Outcome), Refusal>
        ensures refused { RefusedBy (hears_refusal from word (box_of self)) result }
        ensures is { IfOk result (λ p. box_of p.0 ≡ takes (told_by from self.me word) tag (box_of self)) }
        ensures outcome { IfOk result (λ p. p.1 ≡ outcome_of from word (box_of self)) }
        ensures so { IfOk result (λ p. (es : List Ev) (i : ℕ) → Stands (box_of self) es → nth_is i (told_by from self.me word) (world self.n es).flight → is_in tag (world self.n es).drawn ≡ false → Stands (box_of p.0) (Comes i tag ∷ es)) }
    {
        self.allows_word(from, word)?;
        Ok(self.taken(from, word, tag))
    }

    // A word comes, and who tells it has shown that it has it.
    pub fn hears(self, from: u8, word: Word, tag: u64) -> Result<(Router, Outcome), Refusal>
        ensures refused { RefusedBy (hears_refusal from word (box_of self)) result }
        ensures is { IfOk result (λ p. box_of p.0 ≡ hears (told_by from self.me word) tag (box_of self)) }
        ensures outcome { IfOk result (λ p. p.1 ≡ outcome_of from word (box_of self)) }
        ensures so { IfOk result (λ p. (es : List Ev) (i : ℕ) → Stands (box_of self) es → nth_is i (told_by from self.me word) (world self.n es).flight → is_in tag (world self.n es).drawn ≡ false → Stands (box_of p.0) (Comes i tag ∷ es)) }
    {
        let (router, outcome) = self.takes(from, word, tag)?;
        Ok((router.marked(from, word.id), outcome))
    }
}
