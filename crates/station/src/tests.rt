// Two boxes on one wire.
use crate::state::Station;
use messages::Settings;
use std::test::Fail;

// Box `me` of two, with a wire 2 that costs 7.
fn wired(me: u8, drawn: u64) -> Result<Station, Fail> {
    let station = Station::new(2, me, drawn)?;
    Ok(station.rewire(Settings {
        boxes: 2,
        me,
        costs: [0, 0, 7, 0, 0, 0, 0, 0],
    })?)
}

// Each hears the hello of the other.
fn greeted(a: Station, b: Station) -> Result<(Station, Station), Fail> {
    let from_a = a.links().hello_on(2).ok_or("no hello")?;
    let from_b = b.links().hello_on(2).ok_or("no hello")?;
    Ok((a.hears_hello(2, from_b)?, b.hears_hello(2, from_a)?))
}

// Box 0 tells its word at the fifth tick; box 1, which has said its own, answers that it has it, and knows the way.
#[test]
fn told_and_shown(rt: HostRuntime) -> Result<(), Fail> {
    let (a, b) = greeted(wired(0, 11)?, wired(1, 22)?)?;
    let (a, b) = greeted(a, b)?;
    let mut a = a;
    for tag in 1..5 {
        a = a.tick(tag)?.station;
    }
    let told = a.tick(5)?;
    assert_eq!(rt; told.words[2].count, 1);
    let b = b.tick(6)?.station;
    assert_eq!(rt; b.hands_on(0), None);
    let heard = b.hears_words(2, told.words[2], [7, 8, 9, 10])?;
    assert_eq!(rt; heard.station.hands_on(0), Some(0));
    assert_eq!(rt; heard.wire, 2);
    assert_eq!(rt; heard.seens.count, 1);
    assert_eq!(rt; heard.words.count, 0);
    let a = told.station.hears_seens(2, heard.seens)?;
    assert!(rt; a.router().shown(1, 0));
    Ok(())
}
