// What a box's journal says: replaying its lines gives the words that the box had, and the least ways by them.
//
// It knows journal lines and nothing of files, wires or a box's state. It promises for every list of bytes and every tick what was known then, how many of the bytes
// say so and what is wrong with the line after them; that a line more is noted; and that later lines change nothing of what was.
#![tactic(auto)]

mod memory;
mod notes;
mod noting;
mod remembering;
mod replaying;

pub use memory::Memory;
pub use replaying::{Outcome, replay};

#[cfg(test)]
mod tests;
