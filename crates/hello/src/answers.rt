// Why a call is refused.
ghost use Rattle.hello.specs.State.{refusal_number};
ghost use Rattle.std.specs.Prelude.{◌≡◌};

// Nothing has changed then.
#[derive(Clone, Copy, Debug, PartialEq, Eq)]
pub enum Refusal {
    // A box or a wire that isn't there, the box itself, settings of another box, a drawn number 0.
    OutOfRange,
    // Another box on a wire that has a road.
    OtherBox,
    // No tick is left to count.
    Spent,
}

// The number of each refusal; no message asks for a tick, so Spent goes by the number of what is out of range.
impl From<Refusal> for u8 {
    ghost from_gives = { λ r n. n ≡ refusal_number r };

    fn from(refusal: Refusal) -> u8 {
        match refusal {
            Refusal::OutOfRange => 2,
            Refusal::OtherBox => 4,
            Refusal::Spent => 2,
        }
    }
}
