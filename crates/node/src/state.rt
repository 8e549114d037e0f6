// The state of the running box.
use packets::Quota;
use station::Station;

// `station`: wires, roads, words and ways. `quota`: how many errors were made in this second.
#[derive(Clone, Copy, Debug, PartialEq, Eq)]
pub struct Node {
    pub(crate) station: Station,
    pub(crate) quota: Quota,
}
