// A packet on its way from box to box, one box at a time.
//
// It knows the boxes by their calls, and the wires between them. It promises what each step does to box, wires and packet, that a step is one of the packet's trip in the model,
// and that at rest, step by step, the packet comes out where it goes at the least cost, or is refused where it began.
#![tactic(auto)]

mod stepping;
mod values;

pub use values::{Step, Traveller};
