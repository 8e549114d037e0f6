// A net of running boxes on wires: what its calls do to it, and whether it is at rest.
//
// It knows the boxes by their calls. It promises that each call plays moves of the model's net, that its test of rest is the model's, and that a net left alone comes to rest.
#![tactic(auto)]

mod arriving;
mod laying;
mod rest;
mod settings;
#[cfg(test)]
mod tests;
mod turning;

pub use arriving::arrive;
pub use laying::{lay, take_away};
pub use rest::at_rest;
pub use turning::{begin, fall, set_cost, tick};
