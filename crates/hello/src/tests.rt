// Two boxes on two wires.
use crate::state::Links;
use messages::{Hello, Settings};
use std::test::Fail;

// Box `me` of two; its wires 2 and 5 are there.
fn wired(me: u8, drawn: u64) -> Result<Links, Fail> {
    let links = Links::new(2, me, drawn)?;
    Ok(links.rewire(Settings {
        boxes: 2,
        me,
        costs: [0, 0, 7, 0, 0, 9, 0, 0],
    })?)
}

// Each hears the hello of the other.
fn exchanged(a: Links, b: Links, wire: u8) -> Result<(Links, Links), Fail> {
    let from_a = a.hello_on(wire).ok_or("no hello")?;
    let from_b = b.hello_on(wire).ok_or("no hello")?;
    Ok((a.hears(wire, from_b)?, b.hears(wire, from_a)?))
}

// Box 0, which drew 11, with its road to box 1, which drew 22, open over both wires.
fn open() -> Result<Links, Fail> {
    let (a, b) = exchanged(wired(0, 11)?, wired(1, 22)?, 2)?;
    let (a, b) = exchanged(a, b, 2)?;
    let (a, b) = exchanged(a, b, 5)?;
    let (a, _) = exchanged(a, b, 5)?;
    Ok(a)
}

fn ticked(links: Links, times: u8) -> Result<Links, Fail> {
    let mut later = links;
    for _ in 0..times {
        later = later.tick()?;
    }
    Ok(later)
}

#[test]
fn opens_after_two_hellos_each_way(rt: HostRuntime) -> Result<(), Fail> {
    let (a, b) = exchanged(wired(0, 11)?, wired(1, 22)?, 2)?;
    assert_eq!(rt; a.road(1), 0);
    assert_eq!(rt; b.road(0), 0);
    let (a, b) = exchanged(a, b, 2)?;
    assert_eq!(rt; a.road(1), 7);
    assert_eq!(rt; b.road(0), 7);
    Ok(())
}

#[test]
fn another_named_number_closes_its_wire(rt: HostRuntime) -> Result<(), Fail> {
    let a = open()?;
    assert_eq!(rt; a.wire_to(1), Some(2));
    let a = a.hears(
        2,
        Hello {
            from: 1,
            drawn: 22,
            heard: 10,
        },
    )?;
    assert_eq!(rt; a.wire_to(1), Some(5));
    assert_eq!(rt; a.road(1), 9);
    Ok(())
}

#[test]
fn another_drawn_number_closes_both(rt: HostRuntime) -> Result<(), Fail> {
    let a = open()?;
    let a = a.hears(
        5,
        Hello {
            from: 1,
            drawn: 33,
            heard: 0,
        },
    )?;
    assert_eq!(rt; a.last(1), 33);
    assert_eq!(rt; a.who(2), Some(1));
    assert_eq!(rt; a.wire_to(1), None);
    Ok(())
}

#[test]
fn forty_ticks_keep_it_and_one_more_closes_it(rt: HostRuntime) -> Result<(), Fail> {
    let a = ticked(open()?, 40)?;
    assert_eq!(rt; a.road(1), 7);
    assert_eq!(rt; ticked(a, 1)?.road(1), 0);
    Ok(())
}

// While the lower of two wires is lost the road goes over the other, and back once the lower one is found.
#[test]
fn goes_over_the_lower_wire_again(rt: HostRuntime) -> Result<(), Fail> {
    let fits = Hello {
        from: 1,
        drawn: 22,
        heard: 11,
    };
    let a = ticked(open()?, 30)?.hears(5, fits)?;
    assert_eq!(rt; a.road(1), 7);
    let a = ticked(a, 11)?;
    assert_eq!(rt; a.road(1), 9);
    assert_eq!(rt; a.hears(2, fits)?.road(1), 7);
    Ok(())
}
