// The words that a box has of all boxes, as a link-state database, and the table of the least ways by them.
//
// It knows the values of `messages` and `ways`; nothing of which word is taken, of roads that are open, of wires or of bytes. It promises what the
// database has after a word is put into it, and that a table is that of the map that the words make. It takes any number of a box: of one of 64 or
// more there is no word, no road and no way, and a word of one changes nothing.
#![tactic(auto)]

mod table;
mod words;

pub use table::RoutingTable;
pub use words::Database;

#[cfg(test)]
mod tests;
