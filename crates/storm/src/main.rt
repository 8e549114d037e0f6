// Plays nets in storms, which have numbers, and checks what must be so once each is left alone.
//
// In a storm boxes fall, wires come, go and change costs, and repeat, delay, reorder, damage and lose what is on them. Then the net is left alone: it must be at rest, and a
// packet between any two boxes must come out over a way than which none is cheaper by a computation of this program's own, changed by nothing but its steps; or be refused
// where it was sent.
#![tactic(auto)]

mod dice;
mod least;
mod packet;
mod weather;

use dice::Dice;
use least::NEVER;
use std::{env, io};
use travel::Step;
use weather::{Fate, Weather};

const HELP: &str =
    "storm [COUNT [FIRST]]: plays COUNT storms, four if no number is given, numbered from FIRST on, each always the same,
and prints how each went. The first that is not as it must be ends it, with status 1.
";

// How long a net is left alone: until what was heard is forgotten, wires are open that can be, and all words are told, four at a time.
const CALM: u32 = 700;

// The most packets that are sent between the boxes of one net.
const PACKETS: u32 = 400;

// Whether a packet ended as it must.
fn is_right(fate: &Fate, a: u8, e: u8, least: u32, count: u8) -> bool {
    match fate.end {
        Some(Step::Out) => {
            fate.packet.at == e
                && fate.packet.cost == least
                && fate.packet.steps < count
                && fate.right
        }
        Some(Step::Refused) => least == NEVER && fate.packet.at == a && fate.packet.steps == 0,
        _ => false,
    }
}

// The storm with this number: true if all is as it must be.
fn storm(rt: &HostRuntime, number: u64) -> io::Result<bool> {
    let Some(mut weather) = Weather::new(rt, number)? else {
        println!(rt; "storm {number}: no net")?;
        return Ok(false);
    };
    let moments = weather.rage(rt)?;
    weather.calm(rt, CALM)?;
    let count = weather.count;
    if !weather.at_rest() {
        println!(rt; "storm {number}: {count} boxes are not at rest")?;
        return Ok(false);
    }
    let mut least = weather.costs.copied(rt)?;
    least.shorten();
    let mut dice = Dice::new(number);
    let (mut packets, mut out) = (0u32, 0u32);
    for a in 0..count {
        for e in 0..count {
            if count > 20 && dice.below(u64::from(count) * u64::from(count)) >= u64::from(PACKETS) {
                continue;
            }
            let fate = weather.send(a, e);
            if !is_right(&fate, a, e, least.from_to(a, e), count) {
                println!(rt;
                    "storm {number}: the packet from {a} to {e} is at {} after {} steps at cost {}, and the least cost is {}",
                    fate.packet.at,
                    fate.packet.steps,
                    fate.packet.cost,
                    least.from_to(a, e)
                )?;
                return Ok(false);
            }
            packets = packets.saturating_add(1);
            if least.from_to(a, e) != NEVER {
                out = out.saturating_add(1);
            }
        }
    }
    println!(rt;
        "storm {number}: {count} boxes after {moments} moments: rest, {out} of {packets} packets came out, the others were refused where they were sent"
    )?;
    Ok(true)
}

fn main(rt: HostRuntime) -> io::Result<()> {
    let mut args = env::args(&rt)?;
    let _program = args.next();
    let count = match args.next() {
        Some(word) if word.as_str() == "--help" => return rt.print(HELP),
        Some(word) => word.parse().unwrap_or(4u64),
        None => 4,
    };
    let first = match args.next() {
        Some(word) => word.parse().unwrap_or(0u64),
        None => 0,
    };
    for number in first..first.saturating_add(count) {
        if !storm(&rt, number)? {
            return Err(io::Error::from(io::ErrorKind::Other));
        }
    }
    Ok(())
}
