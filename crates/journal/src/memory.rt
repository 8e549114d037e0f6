// What a journal says: the words that its box had, and the least ways by them.
ghost use Rattle.database.specs.State.{map_in};
ghost use Rattle.ways.specs.Table.{Found};

use crate::notes::Notes;
use database::RoutingTable;

// `table`: how far each box is by the words, and the next box towards it.
#[derive(Clone, Copy, Debug, PartialEq, Eq)]
pub struct Memory {
    pub(crate) notes: Notes,
    pub(crate) table: RoutingTable,
    ghost ways: { ∥ Found (map_in notes.n notes.words) notes.me table.far table.next ∥₁ },
}
