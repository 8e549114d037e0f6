// A journal as it stands in a file.
use super::*;
use frames::Fault;

// Box 0 of two began at tick 1, said at 2 that its road to 1 costs 5, took at 3 that the road back costs 7; then comes a line of no kind.
const BOOK: &[u8] = b"\x05\0\0\0\x01\0\x02\0\
\x05\0\0\0\x02\x01\0\0\0\0\0\0\0\0\x01\0\0\0\0\0\0\0\x09\x01\x01\0\x05\
\x05\0\0\0\x03\x02\x01\0\0\0\0\0\0\0\x01\0\0\0\0\0\0\0\x08\x01\0\0\x07\
\x05\0\0\0\x04\x09";

#[test]
fn up_to_a_tick(rt: HostRuntime) {
    let before = replay(BOOK, 2);
    assert_eq!(rt; before.place, 35);
    assert_eq!(rt; before.memory.boxes(), 2);
    assert_eq!(rt; before.memory.distance(1), None);
    let all = replay(BOOK, 9);
    assert_eq!(rt; all.place, 62);
    assert_eq!(rt; all.fault, Some(Fault::Form));
    assert_eq!(rt; all.memory.road(1, 0), 7);
    assert_eq!(rt; all.memory.distance(1), Some(5));
    assert_eq!(rt; all.memory.next(1), Some(1));
}
