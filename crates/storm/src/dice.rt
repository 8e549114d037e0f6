// Numbers as from a die, always the same for one number to begin with.

// The last number; never 0.
#[derive(Clone, Copy)]
pub(crate) struct Dice(u64);

impl Dice {
    // Begun with a number: two that are near each other give others that aren't.
    pub(crate) fn new(begin: u64) -> Dice {
        let mut dice = Dice(begin.wrapping_mul(0x9E37_79B9_7F4A_7C15) | 1);
        for _throw in 0..8 {
            dice.throw();
        }
        dice
    }

    // The next number, by three shifts.
    fn throw(&mut self) -> u64 {
        let mut x = self.0;
        x ^= x << 13;
        x ^= x >> 7;
        x ^= x << 17;
        self.0 = x;
        x
    }

    // A number below `n`, or 0 where that is 0.
    pub(crate) fn below(&mut self, n: u64) -> u64 {
        (self.throw() >> 11).checked_rem(n).unwrap_or(0)
    }

    // True once in `n` times.
    pub(crate) fn one_in(&mut self, n: u64) -> bool {
        self.below(n) == 0
    }

    // One of the numbers of boxes, where there are so many.
    pub(crate) fn box_of(&mut self, count: u8) -> u8 {
        self.byte_below(u64::from(count))
    }

    // A number below `n` that fits into a byte, or 0 where it doesn't.
    pub(crate) fn byte_below(&mut self, n: u64) -> u8 {
        u8::try_from(self.below(n)).unwrap_or(0)
    }

    // A place in so many.
    pub(crate) fn place(&mut self, count: usize) -> usize {
        usize::try_from(self.below(count as u64)).unwrap_or(0)
    }
}
