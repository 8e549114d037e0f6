// Three boxes in a row.
use super::*;
use messages::{Word, WordId};

fn word(about: u8, costs: [u16; 64]) -> Word {
    Word {
        id: WordId {
            about,
            count: 1,
            tag: 9,
        },
        costs,
    }
}

#[test]
fn in_a_row(rt: HostRuntime) {
    let mut words = Database::new();
    let mut first = [0; 64];
    first[1] = 5;
    words.put(word(0, first));
    assert_eq!(rt; words.ways(3, 0).next(1), None);
    let mut second = [0; 64];
    second[0] = 7;
    second[2] = 2;
    words.put(word(1, second));
    let mut third = [0; 64];
    third[1] = 4;
    words.put(word(2, third));
    let table = words.ways(3, 0);
    assert_eq!(rt; table.distance(2), Some(7));
    assert_eq!(rt; table.next(2), Some(1));
    assert_eq!(rt; table.distance(0), Some(0));
    assert_eq!(rt; table.next(0), None);
    assert_eq!(rt; table.distance(3), None);
    assert_eq!(rt; table.next(255), None);
}

#[test]
fn of_no_box(rt: HostRuntime) {
    let mut words = Database::new();
    words.put(word(64, [1; 64]));
    assert_eq!(rt; words, Database::new());
    assert_eq!(rt; words.word(64).costs[0], 0);
    assert_eq!(rt; words.ways(65, 0).distance(0), None);
    assert_eq!(rt; words.ways(2, 2).distance(0), None);
}
