// Reads a line that a box is given.
ghost use Rattle.std.specs.Prelude.{◌≡◌, IfOk};
ghost use Rattle.console.specs.Inputs.{number_of_fault, draw_in, wire_in, input_in, CanBe};
ghost use Rattle.console.specs.Outputs.{text_of};
ghost use Rattle.console.specs.Back.{ReadAs};
ghost use Rattle.console.specs.declared.output.Output.{Output};

use super::hex::{Hex, are_digits, number};

// What a line asks for.
#[derive(Drop)]
pub enum Input<'a> {
    // `settings HEX`: settings come.
    Settings(Hex<'a>),
    // `draw HEX`: a number that was drawn, never 0.
    Draw(u64),
    // `wire W HEX`: a frame came over a wire.
    Wire(u8, Hex<'a>),
    // `house HEX`: a packet came from a house.
    House(Hex<'a>),
    // `tick`: a tick has passed.
    Tick,
    // `fall`: the box loses all that it knew.
    Fall,
}

// Why a line is refused.
#[derive(Clone, Copy, Debug, PartialEq, Eq)]
pub enum Fault {
    // It has none of the forms.
    Form,
}

// The number by which a refusal is printed.
impl From<Fault> for u8 {
    ghost from_gives = { λ fault n. n ≡ number_of_fault fault };

    fn from(fault: Fault) -> u8 {
        match fault {
            Fault::Form => 1,
        }
    }
}

// Sixteen digits of a number other than 0.
fn draw(digits: &[u8]) -> Result<Input<'_>, Fault>
    ensures is { result ≡ draw_in digits.now }
    ensures in_range { IfOk result CanBe }
{
    if digits.len() != 16 || !are_digits(digits) {
        return Err(Fault::Form);
    }
    let n = number(digits);
    if n == 0 {
        return Err(Fault::Form);
    }
    Ok(Input::Draw(n))
}

// A digit from 0 to 7, a blank, and pairs of digits.
fn wire(rest: &[u8]) -> Result<Input<'_>, Fault>
    ensures is { result ≡ wire_in rest.now }
    ensures in_range { IfOk result CanBe }
{
    let [w @ b'0'..=b'7', b' ', digits @ ..] = rest else {
        return Err(Fault::Form);
    };
    let hex = Hex::read(digits)?;
    Ok(Input::Wire(*w - b'0', hex))
}

// What the line asks for, or why it is refused.
#[tactic(auto, using(crate::proofs::Back::read_back))]
pub fn read(line: &[u8]) -> Result<Input<'_>, Fault>
    ensures is { result ≡ input_in line.now }
    ensures in_range { IfOk result CanBe }
    ensures again { (output : Output) → line.now ≡ text_of output → ReadAs output result }
{
    if let Some(digits) = line.strip_prefix(b"settings ") {
        let hex = Hex::read(digits)?;
        return Ok(Input::Settings(hex));
    }
    if let Some(digits) = line.strip_prefix(b"draw ") {
        return draw(digits);
    }
    if let Some(rest) = line.strip_prefix(b"wire ") {
        return wire(rest);
    }
    if let Some(digits) = line.strip_prefix(b"house ") {
        let hex = Hex::read(digits)?;
        return Ok(Input::House(hex));
    }
    match line {
        b"tick" => Ok(Input::Tick),
        b"fall" => Ok(Input::Fall),
        _ => Err(Fault::Form),
    }
}
