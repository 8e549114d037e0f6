// The ways that the box of a journal had.
ghost use Rattle.std.specs.Prelude.{◌≡◌};
ghost use Rattle.journal.specs.State.{known_of};
ghost use Rattle.chart.specs.Laws.{OnSomeWay, Reached};
ghost use Rattle.chart.specs.Ways.{on_least_way, on_taken_way, way_to};

use journal::Memory;

// The next box on a least way, and what the way costs.
#[derive(Clone, Copy, Debug, PartialEq, Eq)]
pub struct Way {
    pub by: u8,
    pub cost: u32,
}

impl Way {
    // The least way to a box, nothing to itself, if no way leads there or there is no such box.
    pub fn to(memory: &Memory, to: u8) -> Option<Way>
        ensures { result ≡ way_to to (known_of memory.now) }
    {
        let by = memory.next(to)?;
        let cost = memory.distance(to)?;
        Some(Way { by, cost })
    }
}

// Is the road from a to e on a least way from the journal's box?
pub fn is_on_a_least_way(memory: &Memory, a: u8, e: u8) -> bool
    ensures is { result ≡ on_least_way a e (known_of memory.now) }
    ensures so { OnSomeWay }
{
    let (Some(before), Some(after)) = (memory.distance(a), memory.distance(e)) else {
        return false;
    };
    let cost = memory.road(a, e);
    cost > 0 && u64::from(before) + u64::from(cost) == u64::from(after)
}

// Is the road from a to e on a least way that begins with the next box towards e?
pub fn is_taken(memory: &Memory, a: u8, e: u8) -> bool
    ensures is { result ≡ on_taken_way a e (known_of memory.now) }
    ensures so { Reached }
{
    let first = if a == memory.number() {
        Some(e)
    } else {
        memory.next(a)
    };
    is_on_a_least_way(memory, a, e) && memory.next(e) == first
}
