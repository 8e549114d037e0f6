// Sets of places below 64 as the bits of a number.
//
// It may know numbers, and of the model only `pick`, the first few places that pass a test: nothing of boxes, roads or words.
// It promises what every bit of an answer is, and takes any place: one of 64 or more is in no number, and changes none.
#![tactic(auto)]

ghost use Rattle.std.specs.Prelude.{◌≡◌, ℕ, not, ◌&&◌, ◌||◌, length, ◌==◌, nat_lt, take};
ghost use Rattle.bits.specs.Bits.{bit, four_lowest, padded};

// Whether place i is in x; none of 64 or more is.
pub fn has_bit(x: u64, i: u8) -> bool
    ensures { result ≡ bit x i }
{
    i < 64 && (x >> i) & 1 == 1
}

// x and place i; x where i is 64 or more.
pub fn with_bit(x: u64, i: u8) -> u64
    ensures { (j : ℕ) → bit result j ≡ ((j == i && nat_lt i 64) || bit x j) }
{
    if i < 64 { x | (1 << i) } else { x }
}

// x but for place i.
pub fn without_bit(x: u64, i: u8) -> u64
    ensures { (j : ℕ) → bit result j ≡ (bit x j && not (j == i)) }
{
    if i < 64 { without(x, 1 << i) } else { x }
}

// The places of x that y lacks.
pub fn without(x: u64, y: u64) -> u64
    ensures { (j : ℕ) → bit result j ≡ (bit x j && not (bit y j)) }
{
    x & !y
}

// Up to four places, rising: the first `count` of `items`, and 0 after them.
// Kept: a count beside four places, as in the packet of words that is made of it. The library's ArrayVec has no count to hand on, and is not `Copy`, as `telling`'s `Ticked` is.
#[derive(Clone, Copy, Debug, PartialEq, Eq, Default)]
pub struct Picked {
    pub count: u8,
    pub items: [u8; 4],
}

impl Picked {
    // The places that it holds: the first `count`, or all four where that says more.
    pub fn places(&self) -> &[u8]
        ensures { result.now ≡ take self.now.count self.now.items }
    {
        &self.items[..usize::from(self.count).min(4)]
    }
}

// The lowest four places of x, or all where they are fewer.
pub fn lowest_four(x: u64) -> Picked
    ensures count { result.count ≡ length (four_lowest x) }
    ensures items { result.items ≡ padded 4 (four_lowest x) }
{
    let mut left = x;
    let mut count = 0u8;
    let mut items = [0u8; 4];
    for item in &mut items {
        if left == 0 {
            break;
        }
        *item = left.trailing_zeros() as u8;
        left &= left - 1;
        count += 1;
    }
    Picked { count, items }
}

#[cfg(test)]
mod tests {
    use super::*;

    #[test]
    fn one_place(rt: HostRuntime) {
        let top = 1u64 << 63;
        for (x, i, has, with, less) in [
            (0u64, 0u8, false, 1u64, 0u64),
            (5, 2, true, 5, 1),
            (5, 1, false, 7, 5),
            (0, 63, false, top, 0),
            (u64::MAX, 63, true, u64::MAX, top - 1),
            (u64::MAX, 64, false, u64::MAX, u64::MAX),
            (0, 255, false, 0, 0),
        ] {
            assert_eq!(rt; has_bit(x, i), has);
            assert_eq!(rt; with_bit(x, i), with);
            assert_eq!(rt; without_bit(x, i), less);
        }
        assert_eq!(rt; without(0b1101, 0b0110), 0b1001);
    }

    #[test]
    fn lowest(rt: HostRuntime) {
        for (x, count, items) in [
            (0u64, 0u8, [0u8; 4]),
            (1, 1, [0; 4]),
            (0b1010_0000, 2, [5, 7, 0, 0]),
            (u64::MAX, 4, [0, 1, 2, 3]),
            (u64::MAX << 60, 4, [60, 61, 62, 63]),
            (1 << 63, 1, [63, 0, 0, 0]),
        ] {
            let picked = lowest_four(x);
            assert_eq!(rt; picked, Picked { count, items });
            assert_eq!(rt; picked.places().len(), usize::from(count));
        }
    }
}
