// What is laid, and what was drawn.
use crate::ends::Plug;

// `plugs`: what is across from each end, eight for each of 64 boxes; `losing`: how many of the next things that go out there are lost. `laid`: how many wires were ever laid; `drawn`: the last number drawn, each of which is drawn once.
#[derive(Clone, Copy, Debug, PartialEq, Eq)]
pub struct Ground {
    pub(crate) plugs: [Option<Plug>; 512],
    pub(crate) losing: [u32; 512],
    pub(crate) laid: u64,
    pub(crate) drawn: u64,
}
