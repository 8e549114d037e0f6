// The lines that a running box reads on standard input and writes on standard output.
//
// This crate knows bytes and nothing of boxes: what settings, frames, packets and lines of a journal mean is for others to say.
// It promises that every line of bytes is read as one input or refused, which bytes the digits of an input stand for, and how each output is written;
// and that what is written for a wire or a house is read on the other side as the same bytes.
#![tactic(auto)]

mod hex;
mod input;
mod output;

pub use hex::Hex;
pub use input::{Fault, Input, read};
pub use output::Output;

#[cfg(test)]
mod tests {
    use super::*;
    use std::test::Fail;

    // The bytes of a line, in the front of a buffer that is too large by one.
    fn bytes(hex: &Hex<'_>) -> Option<[u8; 4]> {
        let mut out = [0xee; 4];
        let count = hex.write(&mut out)?;
        if count == 3 && hex.len() == 3 {
            Some(out)
        } else {
            None
        }
    }

    // One line of each form.
    #[test]
    fn each_form(rt: HostRuntime) {
        let wanted = Some([0x09, 0xaf, 0xfa, 0xee]);
        assert!(rt;
            matches!(read(b"settings 09afFA"), Ok(Input::Settings(hex)) if bytes(&hex) == wanted)
        );
        assert!(rt;
            matches!(
                read(b"draw 0123456789abcDEF"),
                Ok(Input::Draw(0x0123_4567_89ab_cdef))
            )
        );
        assert!(rt; matches!(read(b"draw 0000000000000001"), Ok(Input::Draw(1))));
        assert!(rt; matches!(read(b"draw ffffffffffffffff"), Ok(Input::Draw(u64::MAX))));
        assert!(rt;
            matches!(read(b"wire 0 09AFfa"), Ok(Input::Wire(0, hex)) if bytes(&hex) == wanted)
        );
        assert!(rt;
            matches!(read(b"wire 7 09affa"), Ok(Input::Wire(7, hex)) if bytes(&hex) == wanted)
        );
        assert!(rt;
            matches!(read(b"house 09aFfA"), Ok(Input::House(hex)) if bytes(&hex) == wanted)
        );
        assert!(rt; matches!(read(b"tick"), Ok(Input::Tick)));
        assert!(rt; matches!(read(b"fall"), Ok(Input::Fall)));
    }

    // Bytes that do not fit are not written.
    #[test]
    fn no_room(rt: HostRuntime) -> Result<(), Fail> {
        let mut out = [0xee; 2];
        if let Input::House(hex) = read(b"house 010203")? {
            assert!(rt; hex.write(&mut out).is_none());
        }
        assert!(rt; out == [0xee; 2]);
        Ok(())
    }

    // Lines of another form.
    #[test]
    fn refused(rt: HostRuntime) {
        let lines: [&[u8]; 34] = [
            b"",
            b" ",
            b"tick ",
            b" tick",
            b"ticks",
            b"TICK",
            b"tick\n",
            b"fall 1",
            b"fallen",
            b"settings",
            b"settings ",
            b"settings 0",
            b"settings  00",
            b"settings 00 ",
            b"settings 000",
            b"settings 00 00",
            b"draw 0000000000000000",
            b"draw 000000000000001",
            b"draw 00000000000000001",
            b"draw 000000000000000g",
            b"draw +000000000000001",
            b"wire",
            b"wire 0",
            b"wire 0 ",
            b"wire 00",
            b"wire 8 00",
            b"wire / 00",
            b"wire 10 00",
            b"wire 000 00",
            b"house 0g",
            b"house 0@",
            b"house 0x00",
            b"house 0\xff",
            b"\xff\x00",
        ];
        for line in lines {
            assert!(rt; matches!(read(line), Err(Fault::Form)));
        }
        assert_eq!(rt; u8::from(Fault::Form), 1);
    }

    // Each output, and its line.
    #[test]
    fn written(rt: HostRuntime) -> Result<(), Fail> {
        let frame = [0x00, 0x9a, 0xff];
        let lines = [
            (Output::Wire(5, &frame), "wire 5 009aff"),
            (Output::House(&frame), "house 009aff"),
            (Output::Book(&frame), "book 009aff"),
            (Output::Book(&[]), "book "),
            (Output::Draw(12), "draw 12"),
            (Output::Refused(Fault::Form), "refused 1"),
        ];
        for (output, line) in lines {
            let text = format!(in rt.alloc(); "{output}")?;
            assert_eq!(rt; text.as_str(), line);
        }
        Ok(())
    }
}
