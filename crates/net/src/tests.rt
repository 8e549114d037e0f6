// Two boxes with a wire each are at rest, until one hears the other and has a word to say; and three in a row come to rest, until their last road closes before the first box is told.
use crate::settings::bytes_of;
use crate::{arrive, at_rest, begin, fall, lay, set_cost, take_away, tick};
use ground::{End, Ground, Plug};
use messages::{Hello, Settings};
use node::Node;
use outbox::{Outbox, Port};
use std::test::Fail;

fn begun(me: u8, drawn: u64) -> Result<Node, Fail> {
    let settings = Settings {
        boxes: 2,
        me,
        costs: [1, 0, 0, 0, 0, 0, 0, 0],
    };
    Ok(Node::begin(&bytes_of(settings), drawn, &mut Outbox::new())?)
}

#[test]
fn rests_until_one_has_a_word_to_say(rt: HostRuntime) -> Result<(), Fail> {
    let (mut one, other) = (begun(0, 5)?, begun(1, 6)?);
    assert!(rt; at_rest(&[one, other]));
    assert!(rt; !at_rest(&[other, one]));
    let hello = Hello {
        from: 1,
        drawn: 6,
        heard: 5,
    };
    let mut frame = [0u8; 22];
    let _ = frames::write_hello(hello, &mut frame[..18]);
    checksum::crc::write_sum(&mut frame)?;
    let _ = one.wire(0, &mut frame, [1, 2, 3, 4], &mut Outbox::new());
    assert!(rt; !at_rest(&[one, other]));
    Ok(())
}

// A frame on its way.
#[derive(Drop)]
struct Letter {
    from: End,
    over: Plug,
    frame: Vec<u8>,
}

// What a box gave out goes onto its wires.
fn post(
    rt: &HostRuntime,
    a: u8,
    ground: &Ground,
    out: &Outbox,
    flight: &mut Vec<Letter>,
) -> Result<(), Fail> {
    let mut at = 0;
    for _parcel in 0..100 {
        let Some(parcel) = out.parcel(at) else {
            break;
        };
        at = parcel.next;
        if let Port::Wire(wire) = parcel.port {
            let from = End { at: a, wire };
            if let Some(over) = ground.across(from) {
                let frame = Vec::from_slice(rt.alloc(), parcel.bytes)?;
                flight.push(Letter { from, over, frame })?;
            }
        }
    }
    Ok(())
}

// So many ticks pass at each box, and what is sent arrives in the next.
fn ticks(rt: &HostRuntime, boxes: &mut [Node], ground: &mut Ground, count: u8) -> Result<(), Fail> {
    let mut out = Outbox::new();
    let mut flight: Vec<Letter> = Vec::new(rt.alloc());
    for _tick in 0..count {
        let arriving = std::mem::replace(&mut flight, Vec::new(rt.alloc()));
        for a in 0..3 {
            tick(boxes, ground, a, &mut out);
            post(rt, a, ground, &out, &mut flight)?;
        }
        for letter in arriving {
            let Letter {
                from,
                over,
                mut frame,
            } = letter;
            let port = arrive(boxes, ground, from, over, frame.as_mut_slice(), &mut out);
            if port.is_some() {
                Err("a packet")?;
            }
            post(rt, over.end.at, ground, &out, &mut flight)?;
        }
    }
    Ok(())
}

// A wire between two boxes, at cost 1 from each.
fn join(boxes: &mut [Node], ground: &mut Ground, a: u8, e: u8) -> Result<(End, End), Fail> {
    let mut out = Outbox::new();
    let (here, there) = lay(boxes, ground, a, e).ok_or("no wire")?;
    set_cost(boxes, here, 1, &mut out);
    set_cost(boxes, there, 1, &mut out);
    if out.parcel(0).is_some() {
        Err("settings were refused")?;
    }
    Ok((here, there))
}

#[test]
fn three_in_a_row_come_to_rest(rt: HostRuntime) -> Result<(), Fail> {
    let mut out = Outbox::new();
    let mut ground = Ground::new();
    let mut boxes = [
        begin(&mut ground, 3, 0, &mut out)?,
        begin(&mut ground, 3, 1, &mut out)?,
        begin(&mut ground, 3, 2, &mut out)?,
    ];
    assert!(rt; at_rest(&boxes));
    join(&mut boxes, &mut ground, 0, 1)?;
    let (here, there) = join(&mut boxes, &mut ground, 1, 2)?;
    assert_eq!(rt;
        (here, there),
        (End { at: 1, wire: 1 }, End { at: 2, wire: 0 })
    );
    ticks(&rt, &mut boxes, &mut ground, 60)?;
    assert!(rt; at_rest(&boxes));
    assert_eq!(rt; boxes[0].router().hands_on(2), Some(1));
    set_cost(&mut boxes, here, 0, &mut out);
    set_cost(&mut boxes, there, 0, &mut out);
    take_away(&mut ground, here);
    assert_eq!(rt; ground.across(there), None);
    tick(&mut boxes, &mut ground, 1, &mut out);
    assert_eq!(rt; boxes[1].router().hands_on(2), None);
    assert_eq!(rt; boxes[0].router().hands_on(2), Some(1));
    assert!(rt; !at_rest(&boxes));
    ticks(&rt, &mut boxes, &mut ground, 20)?;
    assert!(rt; at_rest(&boxes));
    fall(&mut boxes, &mut ground, 1, &mut out);
    assert!(rt; !at_rest(&boxes));
    Ok(())
}
