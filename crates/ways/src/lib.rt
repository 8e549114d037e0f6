// The least ways of a net, from one of its boxes, by the words that it has of all.
//
// The boxes are gone through in the order of their distances, each once. Between turns `edge` has, for each box, the least distance by ways
// over boxes gone through: `NEVER` if none leads there yet, and 0 once the box itself is gone through. Roads cost more than 0, so that says
// which are open, and a box gone through takes no offer.
#![tactic(auto)]

ghost use Rattle.std.specs.Prelude.{◌≡◌, ℕ, ◌+◌, ◌<◌, ◌≤◌, length, ◌≢◌, slice_index, slice_set};
ghost use Rattle.ways.specs.Turns.{less_of, next_of, After, Same, Begun, Nearest};
ghost use Rattle.ways.specs.Numbers.{road_by, map_on, map_by};
ghost use Rattle.ways.specs.Refusals.{number_of, outcome_of, why_not};
ghost use Rattle.ways.specs.Table.{Found};

// Kept: numbers for "no way" and "no box" in place of Options, since the C interface fills slices of plain numbers.

/// Stands for "no way" among distances.
pub const NEVER: u32 = 4_294_967_295;

/// Stands for "no box" among next boxes.
pub const NONE: u8 = 255;

// Kept: three slices side by side, as the C interface has them; only the costs say anything of ways.

/// What a box has of all: for each of 64 boxes the count and the tag of its last word, and what its roads cost by that word, 0 for no road.
#[derive(Clone, Copy, Debug, PartialEq, Eq)]
pub struct Words<'a> {
    pub counts: &'a [u64],
    pub tags: &'a [u64],
    pub costs: &'a [[u16; 64]],
}

/// Why nothing was done.
#[derive(Clone, Copy, PartialEq, Eq, Debug)]
pub enum Refusal {
    /// The net has no box, or more than 64.
    Size,
    /// The box is none of the net's.
    Place,
    /// A slice hasn't 64 entries.
    Length,
}

/// The number of each refusal.
impl From<Refusal> for u8 {
    ghost from_gives = { λ r n. n ≡ number_of r };

    fn from(refusal: Refusal) -> u8 {
        match refusal {
            Refusal::Size => 1,
            Refusal::Place => 2,
            Refusal::Length => 3,
        }
    }
}

// What the road from a to e costs, 0 if not both ends have it.
fn road(costs: &[[u16; 64]; 64], a: usize, e: usize) -> u16
    requires { (a < 64) × (e < 64) }
    ensures { result ≡ road_by costs.now a e }
{
    let c = costs[a][e];
    if c == 0 || costs[e][a] == 0 { 0 } else { c }
}

// One less than a distance, so that 0, at a box gone through, is the largest and never the nearest.
fn rank(far: u32) -> u32
    ensures open { 0 < far → result + 1 ≡ far }
    ensures gone { far ≡ 0 → result ≡ 4294967295 }
{
    far.wrapping_sub(1)
}

// The nearest open box, if one is open.
// Kept: `n ≤ 64`, here and in `relax`, `begin` and `walk`, of a number that `least_ways` has tested once. A type for it would be made there and taken apart in each of the four.
// Kept: numbers that index `edge`. Tried was `edge[..n].iter().enumerate()` before `min_by_key`, and the proof that no other open box is nearer didn't close.
fn nearest(n: usize, edge: &[u32; 64]) -> Option<usize>
    requires { n ≤ 64 }
    ensures { Nearest n edge.now result }
{
    (0..n)
        .min_by_key(|e| rank(edge[*e]))
        .filter(|e| rank(edge[*e]) < NEVER - 1)
}

// Offers box e the way over its neighbour v, which is at distance best and has the next box first.
// A nearer way replaces what e has; of ways as near the lower next box stays. No offer is below 0, so none changes a box gone through.
// Kept: `costs`, `edge` and `next` go side by side. A struct of them would hold a `&mut`, and each function that takes it would have to ensure as well that it still lends the same table.
fn offer(
    e: usize,
    v: usize,
    best: u32,
    first: u8,
    costs: &[[u16; 64]; 64],
    edge: &mut [u32; 64],
    next: &mut [u8; 64],
)
    requires { (e < 64) × ((v < 64) × (best ≤ 4194240)) }
    ensures after { After costs.now v best first edge.old next.old edge.new next.new e }
    ensures others { (k : ℕ) → (k ≢ e) → Same edge.old next.old edge.new next.new k }
{
    let c = road(costs, v, e);
    if c > 0 {
        let sum = best + c as u32;
        if sum < edge[e] {
            edge[e] = sum;
            next[e] = first;
        } else if sum == edge[e] && first < next[e] {
            next[e] = first;
        }
    }
}

// Goes through box v, at distance best and with the next box first.
fn relax(
    n: usize,
    v: usize,
    best: u32,
    first: u8,
    costs: &[[u16; 64]; 64],
    edge: &mut [u32; 64],
    next: &mut [u8; 64],
)
    requires { (n ≤ 64) × ((v < n) × (best ≤ 4194240)) }
    ensures after { (k : ℕ) → k < n → After costs.now v best first edge.old next.old edge.new next.new k }
    ensures rest { (k : ℕ) → n ≤ k → Same edge.old next.old edge.new next.new k }
{
    for e in 0..n {
        offer(e, v, best, first, costs, edge, next);
    }
}

// Writes "never" and "none" everywhere.
fn clear(dist: &mut [u32; 64], next: &mut [u8; 64])
    ensures dists { (k : ℕ) → k < 64 → slice_index dist.new k ≡ 4294967295 }
    ensures nexts { (k : ℕ) → k < 64 → slice_index next.new k ≡ 255 }
{
    dist.fill(NEVER);
    next.fill(NONE);
}

// The first turn, at me: the ends of its roads are open, each its own next box.
// Kept: a loop over numbers, since a turn reads a row and a column of `costs` and writes two arrays, so that zipped iterators would need the number too.
fn begin(n: usize, me: usize, costs: &[[u16; 64]; 64], edge: &mut [u32; 64], next: &mut [u8; 64])
    requires { (n ≤ 64) × (me < n) }
    ensures begun { (k : ℕ) → k < n → Begun costs.now me edge.old next.old edge.new next.new k }
    ensures rest { (k : ℕ) → n ≤ k → Same edge.old next.old edge.new next.new k }
{
    for e in 0..n {
        let c = road(costs, me, e);
        if c > 0 && e != me {
            edge[e] = c as u32;
            next[e] = e as u8;
        }
    }
}

// Goes through box v: its open distance is its distance, and 0 stands for it among the open ones.
fn settle(v: usize, edge: &mut [u32; 64], dist: &mut [u32; 64]) -> u32
    requires { v < 64 }
    ensures best { result ≡ slice_index edge.old v }
    ensures edges { edge.new ≡ slice_set edge.old v 0 }
    ensures dists { dist.new ≡ slice_set dist.old v result }
{
    let best = edge[v];
    edge[v] = 0;
    dist[v] = best;
    best
}

// Goes through the boxes in the order of their distances from me. Each turn goes through one more, so n turns are enough.
fn walk(n: usize, me: usize, costs: &[[u16; 64]; 64], dist: &mut [u32; 64], next: &mut [u8; 64])
    requires { (n ≤ 64) × (me < n) }
    ensures { Found (map_on n costs.now) me dist.new next.new }
{
    let mut edge = [NEVER; 64];
    clear(dist, next);
    dist[me] = 0;
    edge[me] = 0;
    begin(n, me, costs, &mut edge, next);
    'near: for _turn in 1..n {
        let Some(v) = nearest(n, &edge) else {
            break 'near;
        };
        let best = settle(v, &mut edge, dist);
        relax(n, v, best, next[v], costs, &mut edge, next);
    }
}

/// Fills `dist` with the distance of each of the `n` boxes from `me`, and `next` with the box to go to first: the lowest on a least way.
///
/// A road counts if the words of both its ends have it, and costs what the word of its beginning says.
/// [`NEVER`] and [`NONE`] stand where there is no way, and at the entries of `n` and beyond; `me` itself has the distance 0 and no next box.
pub fn least_ways(
    n: u8,
    me: u8,
    words: Words<'_>,
    dist: &mut [u32],
    next: &mut [u8],
) -> Result<(), Refusal>
    ensures verdict { outcome_of result ≡ why_not n me (length words.entry.counts.now) (length words.entry.tags.now) (length words.entry.costs.now) (length dist.old) (length next.old) }
    ensures found { outcome_of result ≡ 0 → Found (map_by n words.entry.counts.now words.entry.tags.now words.entry.costs.now) me dist.new next.new }
    ensures refused { 0 < outcome_of result → (dist.new ≡ dist.old) × (next.new ≡ next.old) }
{
    if n == 0 || n > 64 {
        return Err(Refusal::Size);
    }
    if me >= n {
        return Err(Refusal::Place);
    }
    if words.counts.len() != 64 || words.tags.len() != 64 {
        return Err(Refusal::Length);
    }
    let Some(costs) = words.costs.as_array() else {
        return Err(Refusal::Length);
    };
    let Some(dist) = dist.as_mut_array() else {
        return Err(Refusal::Length);
    };
    let Some(next) = next.as_mut_array() else {
        return Err(Refusal::Length);
    };
    walk(n as usize, me as usize, costs, dist, next);
    Ok(())
}

#[cfg(test)]
mod tests {
    use super::*;
    use std::test::Fail;

    fn table(n: u8, me: u8, costs: &[[u16; 64]]) -> Result<([u32; 64], [u8; 64]), Refusal> {
        let words = [1; 64];
        let mut dist = [0; 64];
        let mut next = [0; 64];
        least_ways(
            n,
            me,
            Words {
                counts: &words,
                tags: &words,
                costs,
            },
            &mut dist,
            &mut next,
        )?;
        Ok((dist, next))
    }

    // 3 is as far over 1 as over 2, whose own distances differ.
    #[test]
    fn lowest_of_a_tie(rt: HostRuntime) -> Result<(), Fail> {
        let mut costs = [[0; 64]; 64];
        costs[0][1] = 5;
        costs[1][0] = 1;
        costs[0][2] = 1;
        costs[2][0] = 1;
        costs[1][3] = 2;
        costs[3][1] = 1;
        costs[2][3] = 6;
        costs[3][2] = 1;
        let (dist, next) = table(4, 0, &costs)?;
        assert!(rt; dist[3] == 7 && next[3] == 1);
        assert!(rt; dist[0] == 0 && next[0] == NONE);
        assert!(rt; dist[4] == NEVER && next[4] == NONE);
        Ok(())
    }

    // A road costs what its beginning says, and one that its other end doesn't have is none.
    #[test]
    fn each_way_its_own_cost(rt: HostRuntime) -> Result<(), Fail> {
        let mut costs = [[0; 64]; 64];
        costs[0][1] = 65_535;
        costs[1][0] = 1;
        costs[1][2] = 1;
        let (there, _) = table(3, 0, &costs)?;
        let (back, next) = table(3, 1, &costs)?;
        assert!(rt; there[1] == 65_535 && back[0] == 1);
        assert!(rt; there[2] == NEVER && next[2] == NONE);
        Ok(())
    }

    // 63 steps, farther than 16 bits can say.
    #[test]
    fn all_in_a_row(rt: HostRuntime) -> Result<(), Fail> {
        let mut costs = [[0; 64]; 64];
        for i in 0..63 {
            costs[i][i + 1] = 65_535;
            costs[i + 1][i] = 1;
        }
        let (dist, next) = table(64, 0, &costs)?;
        assert!(rt; dist[2] == 131_070 && dist[63] == 4_128_705 && next[63] == 1);
        Ok(())
    }

    #[test]
    fn refuses(rt: HostRuntime) {
        let costs = [[0; 64]; 64];
        assert!(rt; table(65, 0, &costs) == Err(Refusal::Size));
        assert!(rt; table(3, 3, &costs) == Err(Refusal::Place));
        assert!(rt; table(3, 0, &costs[0..63]) == Err(Refusal::Length));
    }
}
