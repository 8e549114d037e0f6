// Least costs by another way than the boxes': trying every box between any two.
use std::alloc::{AllocError, AllocFailed};

// No way leads there.
pub(crate) const NEVER: u32 = u32::MAX;

// What the wires cost from each box to each other, row by row, 0 for none; and then what the least way costs.
#[derive(Drop)]
pub(crate) struct Costs {
    count: u8,
    rows: Vec<u32>,
}

impl Costs {
    // No wires.
    pub(crate) fn new(rt: &HostRuntime, count: u8) -> Result<Costs, AllocFailed<u32>> {
        let mut rows = Vec::new(rt.alloc());
        for _place in 0..usize::from(count) * usize::from(count) {
            rows.push(NEVER)?;
        }
        Ok(Costs { count, rows })
    }

    // The same again.
    pub(crate) fn copied(&self, rt: &HostRuntime) -> Result<Costs, AllocError> {
        Ok(Costs {
            count: self.count,
            rows: Vec::from_slice(rt.alloc(), self.rows.as_slice())?,
        })
    }

    fn place(&self, a: u8, e: u8) -> usize {
        usize::from(a) * usize::from(self.count) + usize::from(e)
    }

    // What it costs from one box to another.
    pub(crate) fn from_to(&self, a: u8, e: u8) -> u32 {
        self.rows.get(self.place(a, e)).copied().unwrap_or(NEVER)
    }

    pub(crate) fn set(&mut self, a: u8, e: u8, cost: u32) {
        let place = self.place(a, e);
        if let Some(there) = self.rows.get_mut(place) {
            *there = cost;
        }
    }

    // How many wires a box has.
    pub(crate) fn degree(&self, a: u8) -> usize {
        (0..self.count)
            .filter(|e| self.from_to(a, *e) != NEVER)
            .count()
    }

    // From costs of wires to costs of least ways.
    pub(crate) fn shorten(&mut self) {
        for a in 0..self.count {
            self.set(a, a, 0);
        }
        for over in 0..self.count {
            for a in 0..self.count {
                for e in 0..self.count {
                    let sum = self.from_to(a, over).saturating_add(self.from_to(over, e));
                    if sum < self.from_to(a, e) {
                        self.set(a, e, sum);
                    }
                }
            }
        }
    }
}
