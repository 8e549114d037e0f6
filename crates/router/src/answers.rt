// What the calls of a box answer, beside its new state.
ghost use Rattle.router.specs.State.{refusal_number};
ghost use Rattle.std.specs.Prelude.{◌≡◌};

// What became of a word that was told.
#[derive(Clone, Copy, Debug, PartialEq, Eq)]
pub enum Outcome {
    // It was newer, and is taken.
    Taken,
    // It was a newer word of the box itself, which says a newer one still.
    Said,
    // It is the word that the box has.
    Same,
    // The box has a newer one.
    Older,
}

// Why a call is refused; nothing has changed then.
#[derive(Clone, Copy, Debug, PartialEq, Eq)]
pub enum Refusal {
    // A box of n or more, a road to itself, a ninth road, a count of 0.
    OutOfRange,
    // No road is open to who tells.
    NoRoad,
    // The count would be 2^63 or more.
    CountSpent,
}

// The number of each refusal.
impl From<Refusal> for u8 {
    ghost from_gives = { λ r n. n ≡ refusal_number r };

    fn from(refusal: Refusal) -> u8 {
        match refusal {
            Refusal::OutOfRange => 2,
            Refusal::NoRoad => 3,
            Refusal::CountSpent => 11,
        }
    }
}
