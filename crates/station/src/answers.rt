// Why a call is refused.
ghost use Rattle.station.specs.State.{of_wires, of_words, refusal_number};
ghost use Rattle.std.specs.Prelude.{◌≡◌};

use hello::Refusal as WireRefusal;
use router::Refusal as WordRefusal;

// Nothing has changed then.
#[derive(Clone, Copy, Debug, PartialEq, Eq)]
pub enum Refusal {
    // A box or a wire that isn't there, the box itself, settings of another box, a drawn number 0, a count of 0, a packet of none or of more than four; or no tick is left to count.
    OutOfRange,
    // No road is open to who tells.
    NoRoad,
    // Another box on a wire that has a road.
    OtherBox,
    // A count of 2^63 or more.
    CountSpent,
}

// The number of each refusal.
impl From<Refusal> for u8 {
    ghost from_gives = { λ r n. n ≡ refusal_number r };

    fn from(refusal: Refusal) -> u8 {
        match refusal {
            Refusal::OutOfRange => 2,
            Refusal::NoRoad => 3,
            Refusal::OtherBox => 4,
            Refusal::CountSpent => 11,
        }
    }
}

// A refusal of the wires as one of the whole box.
impl From<WireRefusal> for Refusal {
    ghost from_gives = { λ w r. r ≡ of_wires w };

    fn from(refusal: WireRefusal) -> Refusal {
        match refusal {
            WireRefusal::OutOfRange | WireRefusal::Spent => Refusal::OutOfRange,
            WireRefusal::OtherBox => Refusal::OtherBox,
        }
    }
}

// And one of the words.
impl From<WordRefusal> for Refusal {
    ghost from_gives = { λ w r. r ≡ of_words w };

    fn from(refusal: WordRefusal) -> Refusal {
        match refusal {
            WordRefusal::OutOfRange => Refusal::OutOfRange,
            WordRefusal::NoRoad => Refusal::NoRoad,
            WordRefusal::CountSpent => Refusal::CountSpent,
        }
    }
}
