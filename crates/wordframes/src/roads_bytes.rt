// The bytes of the roads of a word, in rising order: each its box and its cost, 1 and 2 bytes. A value has them as the cost to each of 64 boxes, 0 for no road.
ghost use Rattle.std.specs.Prelude.{◌≡◌, ℕ, ◌+◌, ◌*◌, ◌<◌, ◌≤◌, length, IfOk};
ghost use Rattle.octets.specs.Reads.{with_left};
ghost use Rattle.octets.specs.Writes.{put};
ghost use Rattle.wordframes.specs.Reading.{road_in, roads_in};
ghost use Rattle.wordframes.specs.Writing.{bytes_of_roads, roads_to};

use octets::{Fault, Reader, put_byte, put_number};

// One road of a word of the box `about`, to `from` at the lowest.
fn road(reader: &mut Reader, n: u8, about: u8, from: u8) -> Result<(u8, u16), Fault>
    ensures reads { road_in n about from reader.old.left.now ≡ with_left result reader.new.left.now }
    ensures fits { IfOk result (λ road. road.0 < n) }
{
    let to = reader.below(n)?;
    if to < from || to == about {
        return Err(Fault::Range);
    }
    let cost = reader.positive(2)?;
    Ok((to, cost as u16))
}

// So many roads of a word of the box `about`, where there are `n` boxes.
pub fn roads(reader: &mut Reader, n: u8, about: u8, count: u8) -> Result<[u16; 64], Fault>
    requires { n ≤ 64 }
    ensures { roads_in n about count reader.old.left.now ≡ with_left result reader.new.left.now }
{
    let mut costs = [0u16; 64];
    let mut from = 0u8;
    for _ in 0..count {
        let (to, cost) = road(reader, n, about, from)?;
        costs[usize::from(to)] = cost;
        from = to + 1;
    }
    Ok(costs)
}

// How many roads there are.
pub fn road_count(costs: [u16; 64]) -> u8
    ensures { result ≡ length (roads_to costs 64) }
{
    costs.iter().map(|cost| u8::from(*cost != 0)).sum()
}

// Writes the roads from the place `at` on, and gives the place after them.
pub fn put_roads(out: &mut [u8], at: usize, costs: [u16; 64]) -> usize
    requires { at + 3 * length (roads_to costs 64) ≤ length out.old }
    ensures next { result ≡ at + 3 * length (roads_to costs 64) }
    ensures wrote { out.new ≡ put at (bytes_of_roads costs) out.old }
{
    let mut next = at;
    for (to, cost) in costs.iter().enumerate() {
        if *cost != 0 {
            next = put_byte(out, next, to as u8);
            next = put_number(out, next, 2, u64::from(*cost));
        }
    }
    next
}
