// The numbers that were drawn for the box and not yet used.
use std::alloc::AllocFailed;

// How many are kept at most.
const MOST: usize = 1024;

// `numbers`: the next to be used first.
#[derive(Drop)]
pub(crate) struct Stock {
    numbers: Vec<u64>,
}

impl Stock {
    pub(crate) fn new(rt: &HostRuntime) -> Stock {
        Stock {
            numbers: Vec::new(rt.alloc()),
        }
    }

    // Whether no more are kept.
    pub(crate) fn is_full(&self) -> bool {
        self.numbers.len() >= MOST
    }

    // One number more.
    pub(crate) fn put(&mut self, number: u64) -> Result<(), AllocFailed<u64>> {
        self.numbers.push(number)
    }

    // How many are wanting of so many.
    pub(crate) fn wants(&self, count: u8) -> u8 {
        let kept = u8::try_from(self.numbers.len()).unwrap_or(u8::MAX);
        count.saturating_sub(kept)
    }

    // The next number, which stays; 0 where there is none.
    pub(crate) fn next(&self) -> u64 {
        self.numbers.as_slice().first().copied().unwrap_or(0)
    }

    // The next number; 0 where there is none.
    pub(crate) fn take(&mut self) -> u64 {
        if self.numbers.is_empty() {
            return 0;
        }
        self.numbers.remove(0)
    }
}
