// Journals as they stand in files, and what is read off them.
use super::*;
use messages::WordId;

// Box 0 of four: its roads to 1 and 2 cost 1 and 2, theirs to 3 cost 2 and 1, and each road back 9; so 3 is as far over 1 as over 2.
const BOOK: &[u8] = b"\x05\0\0\0\x01\0\x04\0\
\x05\0\0\0\x02\x01\0\0\0\0\0\0\0\0\x01\0\0\0\0\0\0\0\x0a\x02\x01\0\x01\x02\0\x02\
\x05\0\0\0\x03\x02\x01\0\0\0\0\0\0\0\x01\0\0\0\0\0\0\0\x0b\x02\0\0\x09\x03\0\x02\
\x05\0\0\0\x04\x02\x02\0\0\0\0\0\0\0\x01\0\0\0\0\0\0\0\x0c\x02\0\0\x09\x03\0\x01\
\x05\0\0\0\x05\x02\x03\0\0\0\0\0\0\0\x01\0\0\0\0\0\0\0\x0d\x02\x01\0\x09\x02\0\x09";

#[test]
fn over_the_lower_of_two(rt: HostRuntime) {
    let memory = journal::replay(BOOK, 9).memory;
    assert_eq!(rt; Way::to(&memory, 3), Some(Way { by: 1, cost: 3 }));
    assert_eq!(rt; Way::to(&memory, 0), None);
    assert!(rt; is_on_a_least_way(&memory, 1, 3) && is_taken(&memory, 1, 3));
    assert!(rt; is_on_a_least_way(&memory, 2, 3) && !is_taken(&memory, 2, 3));
    assert!(rt; is_taken(&memory, 0, 1) && is_taken(&memory, 0, 2));
    assert!(rt; !is_on_a_least_way(&memory, 3, 1) && !is_on_a_least_way(&memory, 0, 3));
}

fn held_by(by: u8, count: u64, tag: u64) -> Held {
    Held {
        by,
        word: WordId {
            about: 5,
            count,
            tag,
        },
    }
}

#[test]
fn who_lacks_which_word(rt: HostRuntime) {
    let others = [held_by(7, 4, 1), held_by(3, 4, 1), held_by(9, 4, 0)];
    let best = newest(held_by(1, 3, 8), &others);
    assert_eq!(rt; best, held_by(3, 4, 1));
    assert!(rt; held_by(1, 3, 8).lacks(best) && held_by(9, 4, 0).lacks(best));
    assert!(rt; !held_by(7, 4, 1).lacks(best));
}

#[test]
fn no_word_is_older_than_any(rt: HostRuntime) {
    let memory = journal::replay(BOOK, 2).memory;
    assert_eq!(rt; Held::of(&memory, 0).word.tag, 10);
    assert!(rt; Held::of(&memory, 3).lacks(held_by(1, 1, 0)));
    assert!(rt; !Held::of(&memory, 3).lacks(Held::of(&memory, 2)));
}
