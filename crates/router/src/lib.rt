// One box by value: its open roads, the newest word it was told of each box, and what its neighbours have shown that they have.
//
// It knows the model, the values of `messages`, set bits and the database of words with its ways; nothing of bytes, wires or hellos.
// Each call's contract says the whole state it leaves, by the model's definition of that call, and which events of the model it did.
#![tactic(auto)]

mod answers;
mod relinking;
mod roads;
mod state;
mod told;
mod ways_on;
mod words;

pub use answers::{Outcome, Refusal};
pub use state::Router;
