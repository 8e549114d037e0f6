// What numbers fit into, as their types say. These functions only say so, for proofs, and do nothing.
ghost use Rattle.std.specs.Prelude.{ℕ, ◌^◌, ◌<◌, slice_index};
ghost use Rattle.node.specs.State.{whole_of};

use node::Node;

// Each of these fits into a byte,
pub(crate) fn bytes(numbers: &[u8])
    ensures { (i : ℕ) → slice_index numbers.now i < 2 ^ 8 }
{}

// each of these into two,
fn costs(numbers: &[u16])
    ensures { (i : ℕ) → slice_index numbers.now i < 2 ^ 16 }
{}

// and each of these into eight.
pub(crate) fn tags(numbers: &[u64])
    ensures { (i : ℕ) → slice_index numbers.now i < 2 ^ 64 }
{}

// How often a box ticked, and what its roads cost, fits into the lines of its journal.
pub(crate) fn lines(node: &Node)
    ensures tick { (whole_of node.now).links.tick < 2 ^ 32 }
    ensures roads { (e : ℕ) → (whole_of node.now).box.cost e < 2 ^ 16 }
{
    let _tick = node.links().now();
    costs(&node.router().roads());
}
