// The buffer.
ghost use Rattle.std.specs.Prelude.{◌≤◌};

// `bytes`: parcels one after the other, of which the first `used` bytes count.
// Kept: a running box owns nothing on the heap, so that the parcels stand in an array, with how much of it is used beside it. The library's ArrayVec lends no room behind its items, which the writers of frames fill.
#[derive(Drop)]
pub struct Outbox {
    pub(crate) bytes: [u8; 65536],
    pub(crate) used: usize,
    ghost within: { used ≤ 65536 },
}
