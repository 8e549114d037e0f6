// All roads of a box change at once.
ghost use Rattle.std.specs.Prelude.{◌≡◌, ℕ, ◌<◌};
ghost use Rattle.bits.specs.Bits.{bit};
ghost use Rattle.messages.specs.Values.{at};
ghost use Rattle.router.specs.State.{box_of, relink_to, road_to, still_shown};

use crate::state::Router;

impl Router {
    // What the road to a box costs, 0 if it isn't open.
    pub fn cost(self, to: u8) -> u16
        ensures { result ≡ (box_of self).cost to }
    {
        self.links.get(usize::from(to)).copied().unwrap_or(0)
    }

    // The cost of a road, but 0 for the box itself and for a number of no box.
    fn road_from(self, to: u8, cost: u16) -> u16
        ensures { result ≡ road_to (λ _. cost) (box_of self) to }
    {
        if to < self.n && to != self.me {
            cost
        } else {
            0
        }
    }

    // The same for each box.
    fn roads_from(self, links: [u16; 64]) -> [u16; 64]
        ensures { (e : ℕ) → e < 64 → at result e ≡ road_to (at links) (box_of self) e }
    {
        std::array::from_fn(|e| self.road_from(e as u8, links[e]))
    }

    // What a box has still shown over a road that now costs this much; who is heard anew may have fallen, and has shown nothing yet.
    fn kept_shown(self, to: u8, cost: u16, anew: u64) -> u64
        ensures { (i : ℕ) → bit result i ≡ still_shown (λ _. cost) (bit anew) (box_of self) to i }
    {
        if bits::has_bit(anew, to) {
            0
        } else {
            self.still_shown(to, cost)
        }
    }

    // The same for each box.
    fn all_kept(self, costs: [u16; 64], anew: u64) -> [u64; 64]
        ensures { (e : ℕ) → e < 64 → (i : ℕ) → bit (at result e) i ≡ still_shown (at costs) (bit anew) (box_of self) e i }
    {
        std::array::from_fn(|e| self.kept_shown(e as u8, costs[e], anew))
    }

    // The roads cost this much from now on; those to the boxes in `anew` opened anew, if they are open.
    pub fn relink(mut self, links: [u16; 64], anew: u64) -> Router
        ensures { box_of result ≡ relink_to (at links) (bit anew) (box_of self) }
    {
        let costs = self.roads_from(links);
        let shown = self.all_kept(costs, anew);
        self.links = costs;
        self.shown = shown;
        self
    }
}
