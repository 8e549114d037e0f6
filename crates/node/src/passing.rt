// A packet passes: it is handed out, handed on or refused.
ghost use Rattle.std.specs.Prelude.{◌≡◌, ℕ, ◌≤◌, List, length};
ghost use Rattle.std.specs.Fn.{FnOnceReturnsAtMut};
ghost use Rattle.node.specs.Giving.{Added};
ghost use Rattle.node.specs.Handled.{PassedBy};
ghost use Rattle.node.specs.Passing.{PassesTo, answered_at, back_to, error_parcel, framed, packet_in, passed, refused_as, troubled};
ghost use Rattle.node.specs.State.{whole_of};
ghost use Rattle.outbox.specs.Parcels.{HasRoom, contents};
ghost use Rattle.packets.specs.Errors.{error_of};
ghost use Rattle.packets.specs.Packet.{box_from};
ghost use Rattle.packets.specs.declared.values.Trouble.{Trouble as AnyTrouble};

use crate::refusals::Refusal;
use crate::state::Node;
use outbox::{Outbox, Port};
use packets::{Errand, Trouble, packet_in};

// Kept: a frame is bytes of which three functions ask that there are five. A struct of it would hold a `&mut [u8]`, and each of them would have to promise as well that it still lends the same bytes.

// The packet in a frame is turned into another of its length, and the frame into that one's: the kind before it, and the sum behind it.
fn turn<F: FnOnce(&mut [u8])>(frame: &mut [u8], turned: F)
    requires calls { F.IsAlwaysCallable turned }
    requires long { 5 ≤ length frame.old }
    ensures { (packet : List ℕ) × FnOnceReturnsAtMut F.FnOnce turned (packet_in frame.old) tt packet × (frame.new ≡ framed packet) }
{
    let end = frame.len() - 4;
    turned(&mut frame[1..end]);
    frame[0] = 4;
    let _ = checksum::crc::write_sum(frame);
}

// The source's box in a packet, 0 where it is too short.
fn source(packet: &[u8]) -> u8
    ensures { result ≡ box_from packet.now }
{
    packets::byte_at(packet, 13)
}

impl Node {
    // Where an answer to a packet goes: to a house of this box, or over the wire towards the box that the packet came from.
    fn back(&self, packet: &[u8]) -> Result<Port, Refusal>
        ensures { result ≡ back_to packet.now (whole_of self.now) }
    {
        let to = source(packet);
        if to == self.station.links().box_number() {
            return Ok(Port::House);
        }
        self.way(to)
            .map(|wire| Port::Wire(wire))
            .or(Err(Refusal::Unanswered))
    }

    // Where the packet in a frame goes, and the frame as it goes on; or why it is refused, and the frame stays.
    fn send(&self, frame: &mut [u8]) -> Result<Port, Refusal>
        requires { 5 ≤ length frame.old }
        ensures { PassesTo result (whole_of self.now) frame.old frame.new }
    {
        let links = self.station.links();
        match packets::errand(links.boxes(), links.box_number(), packet_in(frame))? {
            Errand::HandOut => Ok(Port::House),
            Errand::Echo => {
                let port = self.back(packet_in(frame))?;
                turn(frame, |packet| packets::echo_back(packet));
                Ok(port)
            }
            Errand::Onward(to) => {
                let wire = self.way(to)?;
                turn(frame, |packet| packets::hand_on(packet));
                Ok(Port::Wire(wire))
            }
        }
    }

    // Where the error for a packet goes, and that one more is made: none of an error, and at most ten in a second.
    fn error_to(&mut self, packet: &[u8]) -> Result<Port, Refusal>
        ensures is { (k : ℕ) (t : AnyTrouble) → troubled k t (whole_of self.old) self.old.quota packet.now ≡ answered_at result k t (whole_of self.old) self.new.quota packet.now }
        ensures stays { self.new.station ≡ self.old.station }
    {
        if packets::is_error(packet) {
            return Err(Refusal::Unanswered);
        }
        let now = self.station.links().now();
        self.quota = self.quota.grant(now).ok_or(Refusal::Unanswered)?;
        self.back(packet)
    }

    // The error for a packet goes to a port: framed over a wire, bare to a house.
    fn give_error(&self, port: Port, trouble: Trouble, packet: &[u8], out: &mut Outbox)
        requires { HasRoom 1 out.old }
        ensures { Added 1 (error_parcel port (error_of (whole_of self.now).links.me trouble packet.now)) out.old out.new }
    {
        let me = self.station.links().box_number();
        match port {
            Port::Wire(wire) => out.give_error(wire, me, trouble, packet),
            _ => out.hand_error(me, trouble, packet),
        }
    }

    // A packet is refused: a line, and for some refusals an error that goes back.
    fn refuse(&mut self, refusal: Refusal, packet: &[u8], out: &mut Outbox)
        requires { HasRoom 2 out.old }
        ensures gives { Added 2 (refused_as refusal (whole_of self.old) self.old.quota packet.now).gives out.old out.new }
        ensures errors { self.new.quota ≡ (refused_as refusal (whole_of self.old) self.old.quota packet.now).errors }
        ensures stays { self.new.station ≡ self.old.station }
    {
        let Some(trouble) = refusal.trouble() else {
            return self.note_refused(refusal, out);
        };
        match self.error_to(packet) {
            Ok(port) => {
                self.note_refused(refusal, out);
                self.give_error(port, trouble, packet, out);
            }
            Err(why) => self.note_refused(why, out),
        }
    }

    // What becomes of the packet in a frame.
    pub(crate) fn pass(&mut self, frame: &mut [u8], out: &mut Outbox) -> Option<Port>
        requires { (HasRoom 2 out.old) × (5 ≤ length frame.old) }
        ensures { PassedBy (passed (whole_of self.old) self.old.quota frame.old) self.old self.new (contents out.old) (contents out.new) frame.new result }
    {
        match self.send(frame) {
            Ok(port) => Some(port),
            Err(refusal) => {
                self.refuse(refusal, packet_in(frame), out);
                None
            }
        }
    }
}
