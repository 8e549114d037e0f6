// Forwards packets through one running box, for measuring.
//
// It sets up box 1 of three between its neighbours, by bytes as on the wires, and prints how many packets from box 0 went on to box 2; or how large a box's state is.
#![tactic(auto)]

mod setting_up;

use node::Node;
use outbox::{Outbox, Port};
use setting_up::Setup;
use std::{env, io};

const HELP: &str =
    "pace [COUNT]: forwards COUNT packets, a thousand if no number is given, through one running box,
and prints how many went on.
pace --size: prints how many bytes the state of a box has.
";

// How many packets are forwarded where no number is given.
const COUNT: u64 = 1000;

fn forward(rt: &HostRuntime, count: u64) -> io::Result<()> {
    let mut out = Outbox::new();
    let Ok(setup) = Setup::new(&mut out) else {
        return println!(rt; "not set up");
    };
    let mut node = setup.node;
    let mut forwarded = 0u64;
    for _ in 0..count {
        let mut frame = setup.frame;
        if let Some(Port::Wire(1)) = node.wire(0, &mut frame, [0; 4], &mut out) {
            forwarded = forwarded.saturating_add(1);
        }
    }
    println!(rt; "{forwarded} of {count} forwarded")
}

fn main(rt: HostRuntime) -> io::Result<()> {
    let mut args = env::args(&rt)?;
    let _program = args.next();
    let Some(word) = args.next() else {
        return forward(&rt, COUNT);
    };
    match word.as_str() {
        "--help" => rt.print(HELP),
        "--size" => println!(rt; "{} bytes", std::mem::size_of::<Node>()),
        word => forward(&rt, word.parse().unwrap_or(COUNT)),
    }
}
