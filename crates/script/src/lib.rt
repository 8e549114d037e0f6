// The lines of a flood script: what each line asks for, and how it is written.
//
// This crate knows bytes and nothing of nets: whether a box or a wire exists is for the net to say.
// It promises that every line of bytes is read as one command or refused, that the numbers of a command that is read are in range,
// and that a command whose numbers are in range is read back as itself once it is written.
#![tactic(auto)]

mod command;
mod line;
mod text;

pub use command::{Command, Fault};
pub use line::read;
pub use text::write;

#[cfg(test)]
mod tests {
    use super::*;
    use std::test::Fail;

    // One line of each form, with numbers that differ, so that no two can be swapped.
    #[test]
    fn each_form(rt: HostRuntime) {
        assert!(rt; matches!(read(b"boxes 7"), Ok(Command::Boxes(7))));
        assert!(rt; matches!(read(b"road 3 2 5 4"), Ok(Command::Road(3, 2, 5, 4))));
        assert!(rt; matches!(read(b"fall 9"), Ok(Command::Fall(9))));
        assert!(rt; matches!(read(b"lose 6 1 8"), Ok(Command::Lose(6, 1, 8))));
        assert!(rt; matches!(read(b"tick 70"), Ok(Command::Tick(70))));
        assert!(rt; matches!(read(b"send 5 0"), Ok(Command::Send(5, 0))));
    }

    // Good lines, each with what is written of the command that it is read as.
    #[test]
    fn read_then_write(rt: HostRuntime) -> Result<(), Fail> {
        let lines = [
            ("boxes 1", "boxes 1"),
            ("boxes 64", "boxes 64"),
            ("road 0 63 65535 1", "road 0 63 65535 1"),
            ("road 1 0 0 0", "road 1 0 0 0"),
            ("fall 00", "fall 0"),
            ("lose 63 0 4294967295", "lose 63 0 4294967295"),
            ("tick 007", "tick 7"),
            ("tick 00000000000000000000000000000000012", "tick 12"),
            ("send 2 2", "send 2 2"),
        ];
        for (line, again) in lines {
            let command = read(line.as_bytes())?;
            let text = write(rt.alloc(), command)?;
            assert_eq!(rt; text.as_str(), again);
        }
        Ok(())
    }

    // Lines of another form, or with a number out of range.
    #[test]
    fn refused(rt: HostRuntime) {
        let lines: [&[u8]; 33] = [
            b"",
            b" ",
            b"tick",
            b"tick ",
            b"tick  1",
            b" tick 1",
            b"tick 1 ",
            b"tick 1 2",
            b"tick\t1",
            b"tick 1\r",
            b"tick 1\n",
            b"tick +1",
            b"tick -1",
            b"tick 1.0",
            b"tick 0x1",
            b"tick one",
            b"tick 1\xff",
            b"tick \x00",
            b"\xff\x00",
            b"tick 4294967296",
            b"tick 99999999999999999999999999999999999999",
            b"TICK 1",
            b"ticks 1",
            b"boxes 0",
            b"boxes 65",
            b"fall 64",
            b"send 0 64",
            b"lose 64 0 1",
            b"road 1 1 2 3",
            b"road 0 1 0 5",
            b"road 0 1 5 0",
            b"road 0 1 65536 1",
            b"road 0 1 2",
        ];
        for line in lines {
            assert!(rt; matches!(read(line), Err(Fault::Form)));
        }
        assert_eq!(rt; u8::from(Fault::Form), 1);
    }
}
