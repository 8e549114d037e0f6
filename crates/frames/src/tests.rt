// Bytes as they stand on a wire, and the number of what is wrong with them.
use super::*;
use messages::Hello;

// The number of the fault in a frame of four boxes, 0 for none.
fn fault_in(bytes: &[u8]) -> u8 {
    match read_frame(bytes, 4) {
        Ok(_) => 0,
        Err(fault) => u8::from(fault),
    }
}

#[test]
fn hello_bytes(rt: HostRuntime) {
    let mut out = [0u8; 20];
    let hello = Hello {
        from: 3,
        drawn: 0x0102_0304_0506_0708,
        heard: 0,
    };
    assert!(rt; write_hello(hello, &mut out) == Some(18));
    assert!(rt; out == [1, 3, 1, 2, 3, 4, 5, 6, 7, 8, 0, 0, 0, 0, 0, 0, 0, 0, 0, 0]);
    assert_eq!(rt; fault_in(&out[0..18]), 0);
    assert_eq!(rt; fault_in(&out[0..17]), 1);
    assert_eq!(rt; fault_in(&out[0..19]), 1);
}

#[test]
fn first_fault(rt: HostRuntime) {
    assert_eq!(rt; fault_in(&[]), 1);
    assert_eq!(rt; fault_in(&[5]), 1);
    assert_eq!(rt; fault_in(&[4, 9]), 0);
    // a box of n before a cut end, and five words after a drawn number 0
    assert_eq!(rt; fault_in(&[1, 4]), 2);
    assert_eq!(rt; fault_in(&[3, 0, 0, 0, 0, 0, 0, 0, 0, 5]), 2);
    assert_eq!(rt; fault_in(&[3, 0, 0, 0, 0, 0, 0, 0, 1, 5]), 1);
}

#[test]
fn count_too_large(rt: HostRuntime) {
    let mut seen = [
        3, 0, 0, 0, 0, 0, 0, 0, 1, 1, 2, 128, 0, 0, 0, 0, 0, 0, 0, 0, 0, 0, 0, 0, 0, 0, 0,
    ];
    assert_eq!(rt; fault_in(&seen), 11);
    assert_eq!(rt; fault_in(&seen[0..26]), 1);
    seen[11] = 127;
    assert_eq!(rt; fault_in(&seen), 0);
}

#[test]
fn roads_rise(rt: HostRuntime) {
    // one word of box 0 with roads to 1 and 3, at costs 5 and 256
    let mut told = [
        2, 0, 0, 0, 0, 0, 0, 0, 1, 1, 0, 0, 0, 0, 0, 0, 0, 0, 1, 0, 0, 0, 0, 0, 0, 0, 0, 2, 1, 0,
        5, 3, 1, 0,
    ];
    assert_eq!(rt; fault_in(&told), 0);
    told[28] = 3;
    assert_eq!(rt; fault_in(&told), 2);
    told[28] = 0;
    assert_eq!(rt; fault_in(&told), 2);
    told[28] = 1;
    told[27] = 9;
    assert_eq!(rt; fault_in(&told), 2);
}
