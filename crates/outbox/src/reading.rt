// Parcels are taken out again, one after the other.
ghost use Rattle.std.specs.Prelude.{◌≡◌};
ghost use Rattle.outbox.specs.Parcels.{contents, port_at, port_number};
ghost use Rattle.outbox.specs.Taken.{TakenOut};

use crate::state::Outbox;

// Where a parcel goes: over a wire, to a house, or into the journal.
#[derive(Clone, Copy, Debug, PartialEq, Eq)]
pub enum Port {
    Wire(u8),
    House,
    Book,
}

// A parcel, and the place of the next.
#[derive(Clone, Copy, Debug, PartialEq, Eq)]
pub struct Parcel<'a> {
    pub port: Port,
    pub bytes: &'a [u8],
    pub next: usize,
}

// The number that a port goes by in the buffer.
impl From<Port> for u8 {
    ghost from_gives = { λ port n. n ≡ port_number port };

    fn from(port: Port) -> u8 {
        match port {
            Port::Wire(w) => w,
            Port::House => 8,
            Port::Book => 9,
        }
    }
}

// The port that goes by a number.
impl From<u8> for Port {
    ghost from_gives = { λ number port. port ≡ port_at number };

    fn from(number: u8) -> Port {
        match number {
            8 => Port::House,
            9 => Port::Book,
            w => Port::Wire(w),
        }
    }
}

impl Outbox {
    // The parcel at a place; none where nothing is left.
    pub fn parcel(&self, at: usize) -> Option<Parcel<'_>>
        ensures { TakenOut at (contents self.now) result }
    {
        if at >= self.used || self.used - at < 3 {
            return None;
        }
        let long = usize::from(u16::from_be_bytes([self.bytes[at + 1], self.bytes[at + 2]]));
        if self.used - at - 3 < long {
            return None;
        }
        Some(Parcel {
            port: Port::from(self.bytes[at]),
            bytes: &self.bytes[at + 3..at + 3 + long],
            next: at + 3 + long,
        })
    }
}
