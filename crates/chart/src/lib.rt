// What is read off the journals of boxes: the way to a box and the roads on it, and who lacks which word.
//
// It knows what a journal says and nothing of files or of printing. It promises which roads a box's least ways take by the words that it had, and of what
// several boxes have of one which is the newest and who has an older.
#![tactic(auto)]

mod held;
mod way;

pub use held::{Held, newest};
pub use way::{Way, is_on_a_least_way, is_taken};

#[cfg(test)]
mod tests;
