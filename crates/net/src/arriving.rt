// Frames come to boxes of a net over wires.
ghost use Rattle.std.specs.Prelude.{◌≡◌, ℕ, ◌+◌, ◌^◌, ◌<◌, ◌≤◌, true, false, List, Some, None, length};
ghost use Rattle.ground.specs.Wires.{drawn_of, plug_at, plug_of};
ghost use Rattle.ground.specs.declared.state.Ground.{Ground};
ghost use Rattle.netmodel.specs.Net.{Arrives, Move, Sent, is_there, net, sent_nth};
ghost use Rattle.outbox.specs.Parcels.{contents};
ghost use Rattle.net.specs.Plays.{DrewFor, GoesOn, Heard, IsSent, NoNews, Plays, Untouched, tags_drawn, tags_of};

use ground::{End, Ground, Plug};
use node::Node;
use outbox::{Outbox, Port};

// The kind of a frame of words.
const WORDS: u8 = 2;

// The tags for the words that a frame may make a box say: four that are drawn for a frame of words, zeros for another.
fn tags_for(ground: &mut Ground, frame: &[u8]) -> [u64; 4]
    ensures is { result ≡ tags_of frame.now (drawn_of ground.old) }
    ensures draws { DrewFor frame.now ground.old ground.new }
{
    match frame.first() {
        Some(&WORDS) => [ground.draw(), ground.draw(), ground.draw(), ground.draw()],
        _ => [0; 4],
    }
}

// A frame comes to the other end of the wire on which it was sent, or whatever these bytes are; unless that wire is gone, when nothing happens.
pub fn arrive(
    boxes: &mut [Node],
    ground: &mut Ground,
    from: End,
    over: Plug,
    frame: &mut [u8],
    out: &mut Outbox,
) -> Option<Port>
    ensures heard { over.end.at < length boxes.old → is_there (plug_at ground.old from.at from.wire) (plug_of over) ≡ true → Heard over.end.at over.end.wire (tags_of frame.old (drawn_of ground.old)) boxes.old boxes.new (contents out.new) frame.old frame.new result }
    ensures draws { over.end.at < length boxes.old → is_there (plug_at ground.old from.at from.wire) (plug_of over) ≡ true → DrewFor frame.old ground.old ground.new }
    ensures gone { is_there (plug_at ground.old from.at from.wire) (plug_of over) ≡ false → Untouched boxes.old boxes.new ground.old ground.new (contents out.new) × (frame.new ≡ frame.old) × (result ≡ None) }
    ensures no_box { length boxes.old ≤ over.end.at → Untouched boxes.old boxes.new ground.old ground.new (contents out.new) × (frame.new ≡ frame.old) × (result ≡ None) }
    ensures so { (first : ℕ → ℕ) (ms : List Move) (k : ℕ) (f : Sent) → Plays first ms boxes.old ground.old → sent_nth k (net (length boxes.old) first ms).sent ≡ Some f → IsSent f from over frame.old → drawn_of ground.old + 4 < 2 ^ 64 → GoesOn first (Arrives k (tags_drawn frame.old (drawn_of ground.old))) ms over.end.at boxes.new ground.new (contents out.new) × (result ≡ None) }
    ensures stays { (first : ℕ → ℕ) (ms : List Move) → Plays first ms boxes.old ground.old → NoNews (length boxes.old) frame.old → Plays first ms boxes.new ground.new }
{
    out.clear();
    let place = usize::from(over.end.at);
    if place >= boxes.len() || !ground.reaches(from, over) {
        return None;
    }
    let tags = tags_for(ground, frame);
    let node = &mut boxes[place];
    node.wire(over.end.wire, frame, tags, out)
}
