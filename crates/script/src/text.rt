// Writes a command as a line of a script.
ghost use Rattle.std.specs.Prelude.{◌≡◌, IfOk, Ok, Some, string_bytes};
ghost use Rattle.script.specs.Line.{command_in};
ghost use Rattle.script.specs.Written.{line_of, CanBe};

use super::command::Command;
use std::alloc::{AllocError, Global};
use std::fmt;

impl fmt::Display for Command {
    ghost output = { λ command. Some (line_of command) };

    fn fmt<W: fmt::Write>(&self, f: &mut fmt::Formatter<W>) -> fmt::Result {
        match self {
            Command::Boxes(n) => write!(f, "boxes {n}"),
            Command::Road(a, e, cost, back) => write!(f, "road {a} {e} {cost} {back}"),
            Command::Fall(a) => write!(f, "fall {a}"),
            Command::Lose(a, e, n) => write!(f, "lose {a} {e} {n}"),
            Command::Tick(n) => write!(f, "tick {n}"),
            Command::Send(a, e) => write!(f, "send {a} {e}"),
        }
    }
}

// The line that asks for the command, without the end of the line.
pub fn write(heap: Global, command: Command) -> Result<String, AllocError>
    ensures line { IfOk result (λ s. string_bytes s ≡ line_of command) }
    ensures back { IfOk result (λ s. CanBe command → command_in (string_bytes s) ≡ Ok command) }
{
    format!(in heap; "{command}")
}
