// Wires of a net are laid and taken away.
ghost use Rattle.std.specs.Prelude.{◌≡◌, ◌≢◌, ℕ, ◌+◌, ◌^◌, ◌<◌, true, List, ◌∷◌, length, IfNone, IfSome, IsSome};
ghost use Rattle.netmodel.specs.Net.{Lays, Move, Takes};
ghost use Rattle.node.specs.declared.state.Node.{Node};
ghost use Rattle.ground.specs.Wires.{Parted, laid_of, plug_at};
ghost use Rattle.hello.specs.State.{links_of};
ghost use Rattle.net.specs.Plays.{LaysBetween, LowestIdle, Plays, idle_at, is_idle};

use ground::{End, Ground};
use hello::Links;
use node::Node;

// Whether a wire of a box is joined to nothing and has no cost.
fn is_idle(links: &Links, ground: &Ground, end: End) -> bool
    ensures { result ≡ is_idle (plug_at ground.now end.at end.wire) ((links_of links.now).cost end.wire) }
{
    ground.across(end).is_none() && links.cost(end.wire) == 0
}

// The lowest wire of a box that is joined to nothing and has no cost.
fn idle_end(boxes: &[Node], ground: &Ground, a: u8) -> Option<End>
    requires { a < length boxes.now }
    ensures { LowestIdle a boxes.now ground.now result }
{
    let links = boxes[usize::from(a)].links();
    for wire in 0..8u8 {
        let end = End { at: a, wire };
        if is_idle(&links, ground, end) {
            return Some(end);
        }
    }
    None
}

// A wire is laid between two boxes, at the lowest wire of each that is joined to nothing and has no cost. Where one has none, where they are one box or there is no such box, or once 2^64 - 1 were laid, nothing changes.
pub fn lay(boxes: &[Node], ground: &mut Ground, a: u8, e: u8) -> Option<(End, End)>
    ensures lays { IfSome result (LaysBetween a e boxes.now ground.old ground.new) }
    ensures none { IfNone result (ground.new ≡ ground.old) }
    ensures if_free { (w v : ℕ) → a ≢ e → a < length boxes.now → e < length boxes.now → a < 64 → e < 64 → w < 8 → v < 8 → idle_at boxes.now ground.old a w ≡ true → idle_at boxes.now ground.old e v ≡ true → laid_of ground.old + 1 < 2 ^ 64 → IsSome result }
    ensures so { IfSome result (λ ends. (first : ℕ → ℕ) (ms : List Move) → Plays first ms boxes.now ground.old → Plays first (Lays ends.0.at ends.0.wire ends.1.at ends.1.wire ∷ ms) boxes.now ground.new) }
{
    if a == e || usize::from(a) >= boxes.len() || usize::from(e) >= boxes.len() {
        return None;
    }
    let here = idle_end(boxes, ground, a)?;
    let there = idle_end(boxes, ground, e)?;
    ground.join(here, there);
    ground.across(here)?;
    Some((here, there))
}

// The wire with this end is gone, if there is one.
pub fn take_away(ground: &mut Ground, end: End)
    ensures parts { Parted end.at end.wire ground.old ground.new }
    ensures so { (first : ℕ → ℕ) (ms : List Move) (boxes : List Node) → Plays first ms boxes ground.old → Plays first (Takes end.at end.wire ∷ ms) boxes ground.new }
{
    ground.part(end);
}
