// Known sums, as they stand on the wire. The tests run them.
#![tactic(auto)]

use checksum::crc::*;
use checksum::internet::*;

// Whether the sum of all but the last four bytes, written into those, reads so and fits.
fn reads(frame: &mut [u8], sum: [u8; 4]) -> bool {
    write_sum(frame).is_ok() && frame.ends_with(&sum) && sum_fits(frame)
}

#[cfg(test)]
mod tests {
    use super::*;
    use std::test::Fail;

    #[test]
    fn known(rt: HostRuntime) {
        assert!(rt; reads(&mut [0; 36], [0xaa, 0x36, 0x91, 0x8a]));
        assert!(rt; reads(&mut [0xff; 36], [0x43, 0xab, 0xa8, 0x62]));
        let mut up =
            *b"\x00\x01\x02\x03\x04\x05\x06\x07\x08\x09\x0a\x0b\x0c\x0d\x0e\x0f\x10\x11\x12\x13\x14\x15\x16\x17\x18\x19\x1a\x1b\x1c\x1d\x1e\x1f....";
        assert!(rt; reads(&mut up, [0x4e, 0x79, 0xdd, 0x46]));
        let mut down =
            *b"\x1f\x1e\x1d\x1c\x1b\x1a\x19\x18\x17\x16\x15\x14\x13\x12\x11\x10\x0f\x0e\x0d\x0c\x0b\x0a\x09\x08\x07\x06\x05\x04\x03\x02\x01\x00....";
        assert!(rt; reads(&mut down, [0x5c, 0xdb, 0x3f, 0x11]));
        let mut digits = *b"123456789....";
        assert!(rt; reads(&mut digits, [0x83, 0x92, 0x06, 0xe3]));
    }

    #[test]
    fn no_room(rt: HostRuntime) -> Result<(), Fail> {
        assert!(rt; !sum_fits(b"123"));
        match write_sum(&mut [1, 2, 3]) {
            Ok(()) => Err(Fail::new("written")),
            Err(why) => {
                assert!(rt; u8::from(why) == 1);
                Ok(())
            },
        }
    }

    // The worked example of RFC 1071, an odd count of bytes, and the worked example of RFC 1624.
    #[test]
    fn words(rt: HostRuntime) {
        assert!(rt; internet_sum(b"\x00\x01\xf2\x03\xf4\xf5\xf6\xf7") == 0x220d);
        assert!(rt; internet_sum(b"\x00\x01\xf2") == 0x0dfe);
        assert!(rt; mended(0xdd2f, 0x5555, 0x3285) == 0);
    }

    // An IPv4 header; with its time to live one lower; with the mended sum; and summed anew, with 0 in the field.
    #[test]
    fn header(rt: HostRuntime) {
        assert!(rt;
            header_fits(
                b"\x45\x00\x00\x73\x00\x00\x40\x00\x40\x11\xb8\x61\xc0\xa8\x00\x01\xc0\xa8\x00\xc7",
            )
        );
        assert!(rt;
            !header_fits(
                b"\x45\x00\x00\x73\x00\x00\x40\x00\x3f\x11\xb8\x61\xc0\xa8\x00\x01\xc0\xa8\x00\xc7",
            )
        );
        assert!(rt; mended(0xb861, 0x4011, 0x3f11) == 0xb961);
        assert!(rt;
            header_fits(
                b"\x45\x00\x00\x73\x00\x00\x40\x00\x3f\x11\xb9\x61\xc0\xa8\x00\x01\xc0\xa8\x00\xc7",
            )
        );
        assert!(rt;
            internet_sum(
                b"\x45\x00\x00\x73\x00\x00\x40\x00\x3f\x11\x00\x00\xc0\xa8\x00\x01\xc0\xa8\x00\xc7",
            ) == 0xb961
        );
    }
}
