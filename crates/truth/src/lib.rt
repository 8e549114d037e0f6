// The calls of a running box, with what they mean for its journal: whatever comes, the lines that the box gave out since it began tell just how many boxes there are, which it is, and which words it has;
// and they tell what it knew at each earlier tick.
//
// A program can call these in place of the box's own calls. They do the same.
#![tactic(auto)]

mod fits;

ghost use Rattle.std.specs.Prelude.{◌≡◌, ◌<◌, [], IfOk, None, Ok};
ghost use Rattle.model.specs.Box.{Stands};
ghost use Rattle.checksum.specs.Crc.{SumFits};
ghost use Rattle.checksum.specs.Refused.{body_of};
ghost use Rattle.frames.specs.Reading.{Told, frame_in, settings_in, value_in};
ghost use Rattle.node.specs.Giving.{tick_all_gives, tick_leaves};
ghost use Rattle.node.specs.Handled.{HandledBy, PassedBy, TurnedBy};
ghost use Rattle.node.specs.Hearing.{FrameDid, by_frame, refused_by, untouched};
ghost use Rattle.node.specs.Passing.{passed};
ghost use Rattle.node.specs.State.{whole_of};
ghost use Rattle.node.specs.Turns.{BegunBy, begun_by, fall_did, fall_gives, fall_leaves, settings_did, settings_give, settings_leave};
ghost use Rattle.outbox.specs.Parcels.{contents};
ghost use Rattle.station.specs.Events.{Did, TellsDid, TickDid};
ghost use Rattle.station.specs.Ticking.{ticking_refusal};
ghost use Rattle.truth.specs.Runs.{StaysRecalled, StaysTrue};
ghost use Rattle.truth.specs.Truth.{Begins, Keeps};

use node::{Node, Refusal};
use outbox::{Outbox, Port};

// What the contracts below come to: after any calls the journal tells of the box, and it tells what the box knew whenever a tick had passed.
pub fn runs()
    ensures stays { StaysTrue }
    ensures recalls { StaysRecalled }
{}

// A box is switched on: its journal begins.
pub fn begin(settings: &[u8], drawn: u64, out: &mut Outbox) -> Result<Node, Refusal>
    ensures begins { Begins result (contents out.new) }
    ensures begun { BegunBy (begun_by (value_in (settings_in settings.now)) drawn) result (contents out.new) }
    ensures so { IfOk result (λ node. Stands (whole_of node).box []) }
{
    Node::begin(settings, drawn, out)
}

// Settings come.
pub fn settings(node: &mut Node, settings: &[u8], out: &mut Outbox)
    ensures keeps { Keeps (whole_of node.old) (whole_of node.new) (contents out.new) }
    ensures turned { TurnedBy (settings_leave (value_in (settings_in settings.now)) (whole_of node.old)) (settings_give (value_in (settings_in settings.now)) (whole_of node.old)) node.old node.new (contents out.new) }
    ensures so { Did (whole_of node.old) (settings_did (value_in (settings_in settings.now)) (whole_of node.old)) (whole_of node.new) }
{
    fits::lines(node);
    node.settings(settings, out);
}

// The box falls, and draws a new number.
pub fn fall(node: &mut Node, drawn: u64, out: &mut Outbox)
    ensures keeps { Keeps (whole_of node.old) (whole_of node.new) (contents out.new) }
    ensures turned { TurnedBy (fall_leaves drawn (whole_of node.old)) (fall_gives drawn (whole_of node.old)) node.old node.new (contents out.new) }
    ensures so { Did (whole_of node.old) (fall_did drawn (whole_of node.old)) (whole_of node.new) }
{
    fits::lines(node);
    node.fall(drawn, out);
}

// A tick passes.
pub fn tick(node: &mut Node, tag: u64, out: &mut Outbox)
    ensures keeps { Keeps (whole_of node.old) (whole_of node.new) (contents out.new) }
    ensures turned { TurnedBy (tick_leaves tag (whole_of node.old)) (tick_all_gives tag (whole_of node.old)) node.old node.new (contents out.new) }
    ensures so { ticking_refusal (whole_of node.old) ≡ None → TickDid tag (whole_of node.old) (whole_of node.new) × TellsDid (whole_of node.new) }
{
    fits::lines(node);
    node.tick(tag, out);
    fits::lines(node);
}

// A packet comes from a house.
pub fn house(node: &mut Node, frame: &mut [u8], out: &mut Outbox) -> Option<Port>
    ensures keeps { Keeps (whole_of node.old) (whole_of node.new) (contents out.new) }
    ensures passes { PassedBy (passed (whole_of node.old) node.old.quota frame.old) node.old node.new [] (contents out.new) frame.new result }
{
    fits::lines(node);
    node.house(frame, out)
}

// A frame comes over a wire.
pub fn wire(
    node: &mut Node,
    wire: u8,
    frame: &mut [u8],
    tags: [u64; 4],
    out: &mut Outbox,
) -> Option<Port>
    ensures keeps { Keeps (whole_of node.old) (whole_of node.new) (contents out.new) }
    ensures dropped { (whole_of node.old).links.cost wire ≡ 0 → HandledBy (untouched [] (whole_of node.old) node.old.quota frame.old) node.new (contents out.new) frame.new result }
    ensures unfit { 0 < (whole_of node.old).links.cost wire → (SumFits frame.old → ⊥) → HandledBy (refused_by 1 (whole_of node.old) node.old.quota frame.old) node.new (contents out.new) frame.new result }
    ensures read { 0 < (whole_of node.old).links.cost wire → SumFits frame.old → HandledBy (by_frame wire (frame_in (whole_of node.old).links.n (body_of frame.old)) tags (whole_of node.old) node.old.quota frame.old) node.new (contents out.new) frame.new result }
    ensures so { 0 < (whole_of node.old).links.cost wire → SumFits frame.old → (t : Told) → frame_in (whole_of node.old).links.n (body_of frame.old) ≡ Ok t → FrameDid wire t tags (whole_of node.old) (whole_of node.new) }
{
    fits::lines(node);
    fits::bytes(frame);
    fits::tags(&tags);
    node.wire(wire, frame, tags, out)
}
