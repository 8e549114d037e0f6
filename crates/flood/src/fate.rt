// What becomes of a packet that a script sends.
use std::fmt;

// It came out at a house, over these boxes and at this cost; a box refused it, by a number; or it was lost between two boxes.
#[derive(Drop)]
pub(crate) enum Fate {
    Arrived(Vec<u8>, u32),
    Refused(u8, u8),
    Lost(u8, u8),
}

impl fmt::Display for Fate {
    fn fmt<W: fmt::Write>(&self, f: &mut fmt::Formatter<W>) -> fmt::Result {
        match self {
            Fate::Arrived(boxes, cost) => {
                write!(f, "way")?;
                for at in boxes.iter() {
                    write!(f, " {at}")?;
                }
                write!(f, " cost {cost}")
            }
            Fate::Refused(at, number) => write!(f, "refused at {at}: {number}"),
            Fate::Lost(from, to) => write!(f, "lost between {from} and {to}"),
        }
    }
}
