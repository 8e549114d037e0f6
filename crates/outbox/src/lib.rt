// What a box gives out in one call: frames for its wires, packets for its houses and lines for its journal, one after the other in a buffer of fixed size.
//
// It knows the frames' bytes and their sums, and nothing of a box's state. It promises which bytes each writer adds, that those before stay, and that what was put in is taken out again.
#![tactic(auto)]

mod giving;
mod reading;
mod state;

pub use reading::{Parcel, Port};
pub use state::Outbox;
