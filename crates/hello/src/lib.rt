// The wires of one box, by value: what it heard on each, whom it tells its hello, and which road is open over which wire.
//
// It knows the model of wires and the values of `messages`; nothing of bytes, of words, or of who calls it when.
// Each call's contract says the whole state it leaves, by the model's definition of that call.
#![tactic(auto)]

mod answers;
mod changes;
mod contacts;
mod hearing;
mod roads;
mod state;
#[cfg(test)]
mod tests;

pub use answers::Refusal;
pub use state::Links;
