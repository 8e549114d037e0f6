// Reads a line of a script.
ghost use Rattle.std.specs.Prelude.{◌≡◌, ◌≤◌, IfOk};
ghost use Rattle.script.specs.Line.{Gives, part_of, parts_of, number_of, boxes_in, road_in, fall_in, lose_in, tick_in, send_in, command_in};
ghost use Rattle.script.specs.Written.{CanBe};

use super::command::{Command, Fault};

// One of these, and nothing else, stands between two parts.
const BLANK: u8 = b' ';

// The part behind `skip` blanks, up to the next one.
fn part(text: &[u8], skip: u8) -> &[u8]
    ensures { result.now ≡ part_of skip text.now }
{
    text.split(|b| *b == BLANK)
        .nth(usize::from(skip))
        .unwrap_or(&[])
}

// How many parts there are between blanks.
fn parts(text: &[u8]) -> usize
    ensures { result ≡ parts_of text.now }
{
    text.iter().filter(|b| **b == BLANK).count() + 1
}

// The number that `text` writes in digits, if there is nothing else and it is at most `most`.
fn number(text: &[u8], most: u32) -> Result<u32, Fault>
    ensures value { Gives (number_of most text.now) result }
    ensures within { IfOk result (λ n. n ≤ most) }
{
    if text.is_empty() {
        return Err(Fault::Form);
    }
    let mut n: u32 = 0;
    for b in text {
        if !b.is_ascii_digit() {
            return Err(Fault::Form);
        }
        let next = n as u64 * 10 + (*b - b'0') as u64;
        if next > most as u64 {
            return Err(Fault::Form);
        }
        n = next as u32;
    }
    Ok(n)
}

// `boxes N`, 1 to 64 of them.
fn boxes(line: &[u8]) -> Result<Command, Fault>
    ensures { result ≡ boxes_in line.now }
{
    let Ok(n @ 1..=64) = number(part(line, 1), 64) else {
        return Err(Fault::Form);
    };
    Ok(Command::Boxes(n as u8))
}

// `road A E COST BACK`, between two boxes; both costs are 0, or neither is.
fn road(line: &[u8]) -> Result<Command, Fault>
    ensures { result ≡ road_in line.now }
{
    let a = number(part(line, 1), 63)?;
    let e = number(part(line, 2), 63)?;
    let cost = number(part(line, 3), 65535)?;
    let back = number(part(line, 4), 65535)?;
    if a == e || (cost == 0) != (back == 0) {
        return Err(Fault::Form);
    }
    Ok(Command::Road(a as u8, e as u8, cost as u16, back as u16))
}

// `fall A`.
fn fall(line: &[u8]) -> Result<Command, Fault>
    ensures { result ≡ fall_in line.now }
{
    let a = number(part(line, 1), 63)?;
    Ok(Command::Fall(a as u8))
}

// `lose A E N`.
fn lose(line: &[u8]) -> Result<Command, Fault>
    ensures { result ≡ lose_in line.now }
{
    let a = number(part(line, 1), 63)?;
    let e = number(part(line, 2), 63)?;
    let n = number(part(line, 3), u32::MAX)?;
    Ok(Command::Lose(a as u8, e as u8, n))
}

// `tick N`.
fn tick(line: &[u8]) -> Result<Command, Fault>
    ensures { result ≡ tick_in line.now }
{
    let n = number(part(line, 1), u32::MAX)?;
    Ok(Command::Tick(n))
}

// `send A E`.
fn send(line: &[u8]) -> Result<Command, Fault>
    ensures { result ≡ send_in line.now }
{
    let a = number(part(line, 1), 63)?;
    let e = number(part(line, 2), 63)?;
    Ok(Command::Send(a as u8, e as u8))
}

// What the line asks for, or why it is refused.
pub fn read(line: &[u8]) -> Result<Command, Fault>
    ensures command { result ≡ command_in line.now }
    ensures in_range { IfOk result CanBe }
{
    match (part(line, 0), parts(line)) {
        (b"boxes", 2) => boxes(line),
        (b"road", 5) => road(line),
        (b"fall", 2) => fall(line),
        (b"lose", 4) => lose(line),
        (b"tick", 2) => tick(line),
        (b"send", 3) => send(line),
        _ => Err(Fault::Form),
    }
}
