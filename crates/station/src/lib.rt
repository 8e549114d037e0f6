// One whole box by value: its wires, its roads and words, and the least ways by them.
//
// It knows the state of wires and of words by their calls alone; nothing of bytes, or of who calls it when.
// Each call's contract says the whole state it leaves, by the model's definition of that call. Between any two calls the roads are those that the wires hold open, and the tables are those of the words that the box has.
#![tactic(auto)]

mod answering;
mod answers;
mod changes;
mod hearing;
mod packets;
mod parts;
mod seens;
mod state;
mod taking;
mod tellings;
#[cfg(test)]
mod tests;
mod ticking;

pub use answers::Refusal;
pub use hearing::Heard;
pub use state::Station;
pub use ticking::Ticked;
