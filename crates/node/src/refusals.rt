// Why the running box refuses what came.
ghost use Rattle.std.specs.Prelude.{◌≡◌};
ghost use Rattle.octets.specs.Faults.{fault_number};
ghost use Rattle.node.specs.Refusals.{number_of, trouble_for};
ghost use Rattle.packets.specs.Errands.{refusal_number as packet_number};
ghost use Rattle.station.specs.State.{refusal_number as station_number};

use frames::Fault;
use packets::{Refusal as PacketRefusal, Trouble};
use station::Refusal as StationRefusal;

#[derive(Clone, Copy, Debug, PartialEq, Eq)]
pub enum Refusal {
    // Bytes that are no frame or no settings, or a sum that isn't right.
    Form,
    // A value out of range; or no tick is left to count.
    Range,
    // No road is open to who tells.
    NoRoad,
    // Another box on a wire that has a road.
    OtherBox,
    // No right packet.
    Malformed,
    // An address of no box there is.
    Address,
    // The packet's time to live is over.
    Expired,
    // No way leads to the packet's box.
    NoWay,
    // The road to the next box is closed.
    Closed,
    // An answer or an error that isn't made.
    Unanswered,
    // A count of 2^63 or more.
    CountSpent,
}

impl Refusal {
    // What the error for a packet says, where one is made.
    pub(crate) fn trouble(self) -> Option<Trouble>
        ensures { result ≡ trouble_for self }
    {
        match self {
            Refusal::Expired => Some(Trouble::TimeExceeded),
            Refusal::NoWay | Refusal::Closed => Some(Trouble::Unreachable),
            _ => None,
        }
    }
}

// The number that it goes by in the journal.
impl From<Refusal> for u8 {
    ghost from_gives = { λ r n. n ≡ number_of r };

    fn from(refusal: Refusal) -> u8 {
        match refusal {
            Refusal::Form => 1,
            Refusal::Range => 2,
            Refusal::NoRoad => 3,
            Refusal::OtherBox => 4,
            Refusal::Malformed => 5,
            Refusal::Address => 6,
            Refusal::Expired => 7,
            Refusal::NoWay => 8,
            Refusal::Closed => 9,
            Refusal::Unanswered => 10,
            Refusal::CountSpent => 11,
        }
    }
}

impl From<Fault> for Refusal {
    ghost from_gives = { λ f r. number_of r ≡ fault_number f };

    fn from(fault: Fault) -> Refusal {
        match fault {
            Fault::Form => Refusal::Form,
            Fault::Range => Refusal::Range,
            Fault::Count => Refusal::CountSpent,
        }
    }
}

impl From<StationRefusal> for Refusal {
    ghost from_gives = { λ s r. number_of r ≡ station_number s };

    fn from(refusal: StationRefusal) -> Refusal {
        match refusal {
            StationRefusal::OutOfRange => Refusal::Range,
            StationRefusal::NoRoad => Refusal::NoRoad,
            StationRefusal::OtherBox => Refusal::OtherBox,
            StationRefusal::CountSpent => Refusal::CountSpent,
        }
    }
}

impl From<PacketRefusal> for Refusal {
    ghost from_gives = { λ p r. number_of r ≡ packet_number p };

    fn from(refusal: PacketRefusal) -> Refusal {
        match refusal {
            PacketRefusal::Malformed => Refusal::Malformed,
            PacketRefusal::Address => Refusal::Address,
            PacketRefusal::Expired => Refusal::Expired,
        }
    }
}
