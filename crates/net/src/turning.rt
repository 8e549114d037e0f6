// Boxes of a net are switched on, tick, fall and get other costs.
ghost use Rattle.std.specs.Prelude.{◌≡◌, ℕ, ◌+◌, ◌^◌, ◌<◌, ◌≤◌, List, [], ◌∷◌, ◌++◌, None, length, IfOk};
ghost use Rattle.model.specs.Flood.{row};
ghost use Rattle.netmodel.specs.Net.{Falls, Move, Rewires, Ticks};
ghost use Rattle.net.specs.Plays.{Empty, GoesOn, Plays, Same, Switched, Turned, Untouched, begun_as, costing, whole_at};
ghost use Rattle.ground.specs.Wires.{Drew, drawn_of};
ghost use Rattle.ground.specs.declared.state.Ground.{Ground};
ghost use Rattle.node.specs.Giving.{tick_all_gives, tick_leaves};
ghost use Rattle.node.specs.Turns.{BegunBy, fall_gives, fall_leaves};
ghost use Rattle.node.specs.declared.state.Node.{Node};
ghost use Rattle.outbox.specs.Parcels.{contents};
ghost use Rattle.station.specs.Ticking.{ticking_refusal};

use crate::settings::{bytes_of, with_cost};
use ground::{End, Ground};
use messages::Settings;
use node::{Node, Refusal};
use outbox::Outbox;

// A box of so many is switched on, under a number that is drawn. It has no wires yet. Where there is no such box, or there are more than 64, there is only that refusal.
pub fn begin(ground: &mut Ground, boxes: u8, me: u8, out: &mut Outbox) -> Result<Node, Refusal>
    ensures begun { BegunBy (begun_as boxes me (drawn_of ground.new)) result (contents out.new) }
    ensures draws { Drew ground.old ground.new }
    ensures opens { (n : ℕ) (first : ℕ → ℕ) → n ≤ 64 → Empty ground.old → Switched n first [] ground.old }
    ensures adds { IfOk result (λ node. (first : ℕ → ℕ) (before : List Node) → Switched boxes first before ground.old → length before ≡ me → drawn_of ground.old + 1 < 2 ^ 64 → Switched boxes (row me (drawn_of ground.new) first) (before ++ node ∷ []) ground.new) }
    ensures plays { (first : ℕ → ℕ) (ss : List Node) (g : Ground) → Switched (length ss) first ss g → Plays first [] ss g }
{
    let drawn = ground.draw();
    let settings = bytes_of(Settings {
        boxes,
        me,
        costs: [0; 8],
    });
    Node::begin(&settings, drawn, out)
}

// A box ticks, with a tag that is drawn for the word that it may say.
pub fn tick(boxes: &mut [Node], ground: &mut Ground, a: u8, out: &mut Outbox)
    ensures turned { a < length boxes.old → Turned (tick_leaves (drawn_of ground.new)) (tick_all_gives (drawn_of ground.new)) a boxes.old boxes.new (contents out.new) }
    ensures draws { a < length boxes.old → Drew ground.old ground.new }
    ensures none { length boxes.old ≤ a → Untouched boxes.old boxes.new ground.old ground.new (contents out.new) }
    ensures so { (first : ℕ → ℕ) (ms : List Move) → a < length boxes.old → Plays first ms boxes.old ground.old → ticking_refusal (whole_at boxes.old a) ≡ None → drawn_of ground.old + 1 < 2 ^ 64 → GoesOn first (Ticks a (drawn_of ground.new)) ms a boxes.new ground.new (contents out.new) }
{
    out.clear();
    let place = usize::from(a);
    if place >= boxes.len() {
        return;
    }
    let tag = ground.draw();
    let node = &mut boxes[place];
    node.tick(tag, out);
}

// A box loses all that it knew, and draws a new number.
pub fn fall(boxes: &mut [Node], ground: &mut Ground, a: u8, out: &mut Outbox)
    ensures turned { a < length boxes.old → Turned (fall_leaves (drawn_of ground.new)) (fall_gives (drawn_of ground.new)) a boxes.old boxes.new (contents out.new) }
    ensures draws { a < length boxes.old → Drew ground.old ground.new }
    ensures none { length boxes.old ≤ a → Untouched boxes.old boxes.new ground.old ground.new (contents out.new) }
    ensures so { (first : ℕ → ℕ) (ms : List Move) → a < length boxes.old → Plays first ms boxes.old ground.old → drawn_of ground.old + 1 < 2 ^ 64 → GoesOn first (Falls a (drawn_of ground.new)) ms a boxes.new ground.new (contents out.new) }
{
    out.clear();
    let place = usize::from(a);
    if place >= boxes.len() {
        return;
    }
    let drawn = ground.draw();
    let node = &mut boxes[place];
    node.fall(drawn, out);
}

// One end of a wire costs otherwise from its box.
pub fn set_cost(boxes: &mut [Node], end: End, cost: u16, out: &mut Outbox)
    ensures turned { end.at < length boxes.old → end.wire < 8 → Turned (costing end.wire cost) (λ s. []) end.at boxes.old boxes.new (contents out.new) }
    ensures no_box { length boxes.old ≤ end.at → Same boxes.old boxes.new (contents out.new) }
    ensures no_wire { 8 ≤ end.wire → Same boxes.old boxes.new (contents out.new) }
    ensures so { (first : ℕ → ℕ) (ms : List Move) (g : Ground) → end.at < length boxes.old → end.wire < 8 → Plays first ms boxes.old g → GoesOn first (Rewires end.at (row end.wire cost (whole_at boxes.old end.at).links.cost)) ms end.at boxes.new g (contents out.new) }
{
    out.clear();
    let place = usize::from(end.at);
    if place >= boxes.len() || end.wire >= 8 {
        return;
    }
    let node = &mut boxes[place];
    let settings = bytes_of(with_cost(node.links(), end.wire, cost));
    node.settings(&settings, out);
}
