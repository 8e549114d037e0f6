// Box 1 of three, with open roads to 0 on wire 0 and to 2 on wire 1, that knows all words; and a packet of 64 bytes from 0 to 2 in its frame.
use frames::Frame;
use messages::{Hello, Settings, Word, WordId, Words};
use node::Node;
use outbox::Outbox;

#[derive(Drop)]
pub(crate) struct Setup {
    pub(crate) node: Node,
    pub(crate) frame: [u8; 69],
}

// A frame does not fit into its buffer, or the box refuses its settings.
#[derive(Clone, Copy, Debug, PartialEq, Eq)]
pub(crate) struct NotSetUp;

// The number that box 1 drew.
const DRAWN: u64 = 11;

// A neighbour's word: one road to box 1, at cost 1.
fn word_of(about: u8) -> Word {
    let mut costs = [0u16; 64];
    costs[1] = 1;
    Word {
        id: WordId {
            about,
            count: 1,
            tag: 100,
        },
        costs,
    }
}

// A frame comes on a wire, with its sum behind it.
fn hear(node: &mut Node, wire: u8, frame: Frame, out: &mut Outbox) -> Result<(), NotSetUp> {
    let mut bytes = [0u8; 256];
    let long = frames::write_frame(frame, &mut bytes)
        .filter(|long| *long <= 252)
        .ok_or(NotSetUp)?;
    let _ = checksum::crc::write_sum(&mut bytes[..long + 4]);
    let _ = node.wire(wire, &mut bytes[..long + 4], [0; 4], out);
    Ok(())
}

// A neighbour's hello and its word come.
fn meet(node: &mut Node, wire: u8, from: u8, out: &mut Outbox) -> Result<(), NotSetUp> {
    let hello = Hello {
        from,
        drawn: 20,
        heard: DRAWN,
    };
    let words = Words {
        drawn: 20,
        count: 1,
        items: [word_of(from); 4],
    };
    hear(node, wire, Frame::Hello(hello), out)?;
    hear(node, wire, Frame::Words(words), out)
}

// A packet of 64 bytes from 10.0.0.2 to 10.2.0.2, in its frame.
fn packet() -> [u8; 69] {
    let mut frame = [0u8; 69];
    frame[..21].copy_from_slice(&[
        4, 0x45, 0, 0, 64, 0, 0, 0, 0, 64, 17, 0, 0, 10, 0, 0, 2, 10, 2, 0, 2,
    ]);
    let sum = checksum::internet::internet_sum(&frame[1..21]);
    frame[11..13].copy_from_slice(&sum.to_be_bytes());
    let _ = checksum::crc::write_sum(&mut frame);
    frame
}

impl Setup {
    pub(crate) fn new(out: &mut Outbox) -> Result<Setup, NotSetUp> {
        let settings = Settings {
            boxes: 3,
            me: 1,
            costs: [1, 1, 0, 0, 0, 0, 0, 0],
        };
        let mut bytes = [0u8; 19];
        let _ = frames::write_settings(settings, &mut bytes).ok_or(NotSetUp)?;
        let mut node = Node::begin(&bytes, DRAWN, out).or(Err(NotSetUp))?;
        meet(&mut node, 0, 0, out)?;
        meet(&mut node, 1, 2, out)?;
        node.tick(30, out);
        Ok(Setup {
            node,
            frame: packet(),
        })
    }
}
