// What a packet is for, why one is refused, and what an error says.
ghost use Rattle.std.specs.Prelude.{◌≡◌};
ghost use Rattle.packets.specs.Errands.{refusal_number};
ghost use Rattle.packets.specs.Errors.{trouble_of, trouble_type};
ghost use Rattle.std.specs.Result.{result_ok};

// Hand it out to the house, answer its echo, or send it on towards another box.
#[derive(Clone, Copy, Debug, PartialEq, Eq)]
pub enum Errand {
    HandOut,
    Echo,
    Onward(u8),
}

// It is no right packet, an address is of no box there is, or its time to live is over.
#[derive(Clone, Copy, Debug, PartialEq, Eq)]
pub enum Refusal {
    Malformed,
    Address,
    Expired,
}

#[derive(Clone, Copy, Debug, PartialEq, Eq)]
pub enum Trouble {
    TimeExceeded,
    Unreachable,
}

// An ICMP type of none of these errors.
#[derive(Clone, Copy, Debug, PartialEq, Eq)]
pub struct NoTrouble;

// The number that a refusal goes by.
impl From<Refusal> for u8 {
    ghost from_gives = { λ refusal n. n ≡ refusal_number refusal };

    fn from(refusal: Refusal) -> u8 {
        match refusal {
            Refusal::Malformed => 5,
            Refusal::Address => 6,
            Refusal::Expired => 7,
        }
    }
}

// The ICMP type of an error.
impl From<Trouble> for u8 {
    ghost from_gives = { λ trouble n. n ≡ trouble_type trouble };

    fn from(trouble: Trouble) -> u8 {
        match trouble {
            Trouble::TimeExceeded => 11,
            Trouble::Unreachable => 3,
        }
    }
}

impl TryFrom<u8> for Trouble {
    type Error = NoTrouble;

    ghost try_from_gives = { λ kind r. result_ok r ≡ trouble_of kind };

    fn try_from(kind: u8) -> Result<Trouble, NoTrouble> {
        match kind {
            11 => Ok(Trouble::TimeExceeded),
            3 => Ok(Trouble::Unreachable),
            _ => Err(NoTrouble),
        }
    }
}
