// What boxes stand on: the wires between them, how many of the next things each end of one loses, and the numbers that are drawn.
//
// It knows nothing of boxes or of what is on the wires. It promises of each call what it answers and what becomes of every wire's end, and that no number is drawn twice.
#![tactic(auto)]

mod ends;
mod numbers;
mod state;
mod wires;

pub use ends::{Carried, End, Plug};
pub use state::Ground;
