// The running box: settings, bytes on wires, packets of houses, drawn numbers, ticks and falls come in; bytes on wires, packets for houses and lines of the journal go out.
//
// It knows all layers below by their calls. Each call's contract says the whole state that it leaves, what it gives out byte by byte, and what is left in the lent frame;
// a refused input changes nothing but the journal and the count of errors in that second.
#![tactic(auto)]

mod notes;
mod parts;
mod passing;
mod refusals;
mod state;
mod ticking;
mod turns;
mod way;
mod wiring;
mod words;

pub use refusals::Refusal;
pub use state::Node;
