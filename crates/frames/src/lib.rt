// The bytes of the messages between boxes, of a box's settings and of its journal: values to bytes and back.
//
// It knows nothing of wires, sums or a box's state. It promises what is read for every list of bytes, what is written, that what was written is read again,
// and that only what is written for a value reads as it.
#![tactic(auto)]

mod frame_bytes;
mod hello_bytes;
mod line_bytes;
mod settings_bytes;
mod values;

pub use frame_bytes::{read_frame, write_frame, write_packet, write_seens, write_words};
pub use hello_bytes::write_hello;
pub use line_bytes::{read_line, write_line};
pub use messages::{Seens, Words};
pub use octets::Fault;
pub use settings_bytes::{read_settings, write_settings};
pub use values::{Entry, Frame, Line};

#[cfg(test)]
mod tests;
