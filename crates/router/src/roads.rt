// A box is switched on, its roads open and close, and it falls.
ghost use Rattle.std.specs.Prelude.{◌≡◌, ℕ, ◌<◌, ◌≤◌, ◌&&◌, List, [], ◌∷◌, ◌++◌, IfOk, nat_lt};
ghost use Rattle.bits.specs.Bits.{bit};
ghost use Rattle.messages.specs.Values.{at};
ghost use Rattle.model.specs.Box.{Stands, begun, closings, fallen, is_open, road_is};
ghost use Rattle.model.specs.Words.{Ev, Falls, Road};
ghost use Rattle.router.specs.State.{RefusedBy, begin_refusal, box_of, open_below, road_refusal};

use crate::answers::Refusal;
use crate::state::Router;
use database::Database;

impl Router {
    // What the road to each box costs, 0 if it isn't open.
    pub fn roads(self) -> [u16; 64]
        ensures { at result ≡ (box_of self).cost }
    {
        self.links
    }

    // Box `me` of `n`, with no road open and no word of any box.
    pub fn begin(n: u8, me: u8) -> Result<Router, Refusal>
        ensures refused { RefusedBy (begin_refusal n me) result }
        ensures is { IfOk result (λ s. box_of s ≡ begun n me) }
        ensures so { IfOk result (λ s. Stands (box_of s) []) }
    {
        if me < n && n <= 64 {
            Ok(Router::blank(n, me))
        } else {
            Err(Refusal::OutOfRange)
        }
    }

    // It falls: its roads close, and all that it knew is gone.
    pub fn falls(self) -> Router
        ensures is { box_of result ≡ fallen (box_of self) }
        ensures so { (es : List Ev) → Stands (box_of self) es → Stands (box_of result) (Falls self.me ∷ (closings (box_of self) self.n ++ es)) }
    {
        Router::blank(self.n, self.me)
    }

    fn blank(n: u8, me: u8) -> Router
        requires { (me < n) × (n ≤ 64) }
        ensures { box_of result ≡ begun n me }
    {
        Router {
            n,
            me,
            links: [0; 64],
            words: Database::new(),
            shown: [0; 64],
        }
    }

    // How many boxes there are.
    pub fn boxes(self) -> u8
        ensures { result ≡ (box_of self).n }
    {
        self.n
    }

    // Which of them this is.
    pub fn box_number(self) -> u8
        ensures { result ≡ (box_of self).me }
    {
        self.me
    }

    // Whether it holds its road to a box open.
    pub fn is_open(self, to: u8) -> bool
        ensures { result ≡ is_open to (box_of self) }
    {
        self.cost(to) > 0
    }

    // How many of its roads are open.
    fn open_roads(self) -> u8
        ensures { result ≡ open_below 64 (box_of self) }
    {
        self.links.iter().filter(|cost| **cost > 0).count() as u8
    }

    // Refuses a road to itself or to a number of no box, and a ninth road.
    fn allows_road(self, to: u8, cost: u16) -> Result<(), Refusal>
        ensures { RefusedBy (road_refusal to cost (box_of self)) result }
    {
        if to >= self.n || to == self.me {
            return Err(Refusal::OutOfRange);
        }
        if cost > 0 && !self.is_open(to) && self.open_roads() >= 8 {
            return Err(Refusal::OutOfRange);
        }
        Ok(())
    }

    // What a box has shown over a road whose cost is now this one: it is forgotten unless the road was open and still is, since who opens it anew may have fallen.
    pub(crate) fn still_shown(self, to: u8, cost: u16) -> u64
        ensures { (i : ℕ) → bit result i ≡ (is_open to (box_of self) && (nat_lt 0 cost && (box_of self).shown to i)) }
    {
        if cost > 0 && self.is_open(to) {
            self.shown_by(to)
        } else {
            0
        }
    }

    // The road to a box opens, closes (the cost is 0) or changes its cost.
    pub fn road(mut self, to: u8, cost: u16) -> Result<Router, Refusal>
        ensures refused { RefusedBy (road_refusal to cost (box_of self)) result }
        ensures is { IfOk result (λ s. box_of s ≡ road_is to cost (box_of self)) }
        ensures so { IfOk result (λ s. (es : List Ev) → Stands (box_of self) es → Stands (box_of s) (Road self.me to cost ∷ es)) }
    {
        self.allows_road(to, cost)?;
        self.shown[to as usize] = self.still_shown(to, cost);
        self.links[to as usize] = cost;
        Ok(self)
    }
}
