// IPv4 packets as bytes: what a box has to do with one, a packet handed on, an echo answered, and an error for one that is refused.
//
// It knows nothing of wires, ways or a box's state. It promises, for every list of bytes, which errand or refusal it is and what is left in a lent buffer; that what
// it hands on, answers or writes is a right packet to every box after; and that no second has more than ten errors.
#![tactic(auto)]

mod error_quota;
mod packet_echo;
mod packet_errand;
mod packet_error;
mod packet_frame;
mod packet_hop;
mod sums;
mod values;

pub use error_quota::Quota;
pub use packet_echo::echo_back;
pub use packet_errand::errand;
pub use packet_error::{byte_at, is_error, write_error};
pub use packet_frame::packet_in;
pub use packet_hop::hand_on;
pub use values::{Errand, NoTrouble, Refusal, Trouble};
