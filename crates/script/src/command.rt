// What a line of a script asks for, and why one is refused.
ghost use Rattle.std.specs.Prelude.{◌≡◌};
ghost use Rattle.script.specs.Line.{number_of_fault};

#[derive(Clone, Copy, Debug, PartialEq, Eq)]
pub enum Command {
    // `boxes N`: a new net of N boxes.
    Boxes(u8),
    // `road A E COST BACK`: a wire between two boxes, with what it costs from each of them; 0 0 takes it away.
    Road(u8, u8, u16, u16),
    // `fall A`: a box loses all that it knew.
    Fall(u8),
    // `lose A E N`: the wire loses the next N things that go from A to E.
    Lose(u8, u8, u32),
    // `tick N`: so many ticks pass.
    Tick(u32),
    // `send A E`: a packet goes from A to E.
    Send(u8, u8),
}

#[derive(Clone, Copy, Debug, PartialEq, Eq)]
pub enum Fault {
    // The line has none of the forms, or a number in it is out of range.
    Form,
}

// The number by which a refusal is printed.
impl From<Fault> for u8 {
    ghost from_gives = { λ fault n. n ≡ number_of_fault fault };

    fn from(fault: Fault) -> u8 {
        match fault {
            Fault::Form => 1,
        }
    }
}
