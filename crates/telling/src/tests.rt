// What a box does after a few calls.
use crate::tick;
use router::{Outcome, Refusal, Router};
use std::test::Fail;

// Box 1 of 2, with its road to box 0 open.
fn second() -> Result<Router, Fail> {
    Ok(Router::begin(2, 1)?.road(0, 1)?)
}

#[test]
fn says_above_what_it_said_before_it_fell(rt: HostRuntime) -> Result<(), Fail> {
    let mut router = second()?;
    for tag in 1..10 {
        router = router.says(tag)?;
    }
    let ninth = router.word(1)?;
    let again = router.falls().road(0, 1)?;
    let (told, _) = again.hears(0, ninth, 10)?;
    assert_eq!(rt; told.word(1)?.id.count, 10);
    Ok(())
}

#[test]
fn keeps_the_larger_of_two_tags(rt: HostRuntime) -> Result<(), Fail> {
    let first = second()?.says(7)?.word(1)?;
    let router = second()?.says(9)?;
    let (told, outcome) = router.hears(0, first, 11)?;
    assert_eq!(rt; outcome, Outcome::Older);
    assert_eq!(rt; told.word(1)?.id.tag, 9);
    Ok(())
}

#[test]
fn refuses_a_ninth_road(rt: HostRuntime) -> Result<(), Fail> {
    let mut router = Router::begin(12, 0)?;
    for to in 1..9 {
        router = router.road(to, 1)?;
    }
    assert_eq!(rt; router.road(9, 1).err(), Some(Refusal::OutOfRange));
    assert!(rt; router.road(8, 2).is_ok());
    Ok(())
}

#[test]
fn tells_a_word_until_it_is_shown(rt: HostRuntime) -> Result<(), Fail> {
    let first = tick(second()?, 5);
    assert!(rt; first.said);
    assert_eq!(rt; first.telling[0].count, 1);
    let again = tick(first.router, 6);
    assert!(rt; !again.said);
    assert_eq!(rt; again.telling[0].count, 1);
    let id = again.router.word(1)?.id;
    assert_eq!(rt; tick(again.router.seen(0, id)?, 7).telling[0].count, 0);
    Ok(())
}
