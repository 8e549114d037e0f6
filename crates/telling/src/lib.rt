#![tactic(auto)]

// What a box tells its neighbours, and what it does at a tick.
//
// It knows the state of a box by its calls alone. It promises which words are named to each neighbour, and that a tick is the model's.
#[cfg(test)]
mod tests;

ghost use Rattle.std.specs.Prelude.{◌≡◌, ℕ, ◌<◌, true, false, ◌&&◌, List, length, slice_index_or, is_some, unwrap_or};
ghost use Rattle.bits.specs.Bits.{padded};
ghost use Rattle.model.specs.Box.{Stands, must_say, tells};
ghost use Rattle.model.specs.Words.{Ev, is_in, world};
ghost use Rattle.router.specs.State.{box_of, has_room};
ghost use Rattle.telling.specs.Telling.{Names, TickDid, no_place, ticked_if, told_to};

use bits::Picked;
use router::Router;

// What a tick did: the new state, whether the box said a word, and for each box what it tells that one.
#[derive(Clone, Copy, Debug, PartialEq, Eq)]
pub struct Ticked {
    pub router: Router,
    pub said: bool,
    pub telling: [Picked; 64],
}

// What it tells a box: the lowest four boxes of which it has a word that this one hasn't shown.
pub fn tells(router: Router, to: u8) -> Picked
    ensures count { result.count ≡ length (tells to (box_of router)) }
    ensures items { result.items ≡ padded 4 (tells to (box_of router)) }
{
    bits::lowest_four(bits::without(router.had(), router.shown_by(to)))
}

// The same at a tick: nothing where no road is open.
fn told(router: Router, to: u8) -> Picked
    ensures { Names result (told_to to (box_of router)) }
{
    if router.is_open(to) {
        tells(router, to)
    } else {
        Picked::default()
    }
}

// What it tells each box.
fn tellings(router: Router) -> [Picked; 64]
    ensures { (e : ℕ) → e < 64 → Names (slice_index_or result e no_place) (told_to e (box_of router)) }
{
    std::array::from_fn(|e| told(router, e as u8))
}

// It says a word if it owes one, unless its count is spent; none where it says none.
pub fn says_owed(router: Router, tag: u64) -> Option<Router>
    ensures said { is_some result ≡ (must_say (box_of router) && has_room (box_of router)) }
    ensures is { box_of (unwrap_or result router) ≡ ticked_if tag (box_of router) }
{
    if router.owes() {
        router.says(tag).ok()
    } else {
        None
    }
}

// At a tick it says a word if it owes one, unless its count is spent; and it tells each neighbour what that one hasn't shown.
pub fn tick(router: Router, tag: u64) -> Ticked
    ensures said { result.said ≡ (must_say (box_of router) && has_room (box_of router)) }
    ensures is { box_of result.router ≡ ticked_if tag (box_of router) }
    ensures telling { (e : ℕ) → e < 64 → Names (slice_index_or result.telling e no_place) (told_to e (ticked_if tag (box_of router))) }
    ensures so { has_room (box_of router) ≡ true → (es : List Ev) → Stands (box_of router) es → is_in tag (world (box_of router).n es).drawn ≡ false → TickDid tag (box_of router) (box_of result.router) es }
{
    let said = says_owed(router, tag);
    let next = said.unwrap_or(router);
    Ticked {
        router: next,
        said: said.is_some(),
        telling: tellings(next),
    }
}
