// What comes over a wire, and from a house.
ghost use Rattle.std.specs.Prelude.{◌≡◌, ◌<◌, [], Ok};
ghost use Rattle.checksum.specs.Crc.{SumFits};
ghost use Rattle.checksum.specs.Refused.{body_of};
ghost use Rattle.frames.specs.Reading.{Told, a_hello, frame_in, some_seen, some_words};
ghost use Rattle.node.specs.Handled.{GivesSo, HandledBy, HeardBy, HeardSo, PassedBy};
ghost use Rattle.node.specs.Hearing.{Counted, FrameDid, by_frame, refused_by, unread, untouched, words_give, words_leave};
ghost use Rattle.node.specs.Passing.{passed};
ghost use Rattle.node.specs.Refusals.{number_of};
ghost use Rattle.node.specs.State.{whole_of};
ghost use Rattle.outbox.specs.Parcels.{HasRoom, contents};
ghost use Rattle.hello.specs.State.{greeting_of};
ghost use Rattle.linkmodel.specs.Station.{heard_hello, teller};
ghost use Rattle.station.specs.Hearing.{words_refusal};
ghost use Rattle.station.specs.Packets.{seens_from, seens_of, seens_refusal};
ghost use Rattle.station.specs.State.{hello_refusal};

use crate::refusals::Refusal;
use crate::state::Node;
use crate::words;
use frames::{Fault, Frame};
use messages::{Hello, Seens, Words};
use outbox::{Outbox, Port};

impl Node {
    // A hello comes over a wire; or it is refused, and nothing changes.
    #[inline(never)]
    fn hello(&mut self, wire: u8, hello: Hello) -> Result<(), Refusal>
        ensures { HeardSo (hello_refusal wire (greeting_of hello) (whole_of self.old)) (heard_hello wire (greeting_of hello) (whole_of self.old)) (FrameDid wire (a_hello hello) [] (whole_of self.old)) result self.old self.new }
    {
        self.station = self.station.hears_hello(wire, hello)?;
        Ok(())
    }

    // And a packet of seens.
    #[inline(never)]
    fn seens(&mut self, wire: u8, seens: Seens) -> Result<(), Refusal>
        ensures { HeardSo (seens_refusal wire seens (whole_of self.old)) (seens_from (teller wire (whole_of self.old).links) (seens_of seens) (whole_of self.old)) (FrameDid wire (some_seen seens) [] (whole_of self.old)) result self.old self.new }
    {
        self.station = self.station.hears_seens(wire, seens)?;
        Ok(())
    }

    // And a packet of words: its lines are noted first, by what the box was before it, and then it is answered.
    #[inline(never)]
    fn words(
        &mut self,
        wire: u8,
        words: Words,
        tags: [u64; 4],
        out: &mut Outbox,
    ) -> Result<(), Refusal>
        requires { (HasRoom 6 out.old) × (Counted words) }
        ensures heard { HeardSo (words_refusal wire words (whole_of self.old)) (words_leave wire words tags (whole_of self.old)) (FrameDid wire (some_words words) tags (whole_of self.old)) result self.old self.new }
        ensures gives { GivesSo (words_give wire words tags (whole_of self.old)) result out.old out.new }
    {
        let heard = self.station.hears_words(wire, words, tags)?;
        self.note_words(heard.outcomes, words, tags, out);
        words::give_answers(heard.wire, heard.seens, heard.words, out);
        self.station = heard.station;
        Ok(())
    }

    // Why a frame that is read as a fault is refused: a count that nobody says matters only over an open road, since of what is read whole the lowest number wins.
    fn unread(&self, wire: u8, fault: Fault) -> Refusal
        ensures { number_of result ≡ unread fault (teller wire (whole_of self.now).links) }
    {
        match fault {
            Fault::Count if self.station.teller(wire).is_none() => Refusal::NoRoad,
            fault => Refusal::from(fault),
        }
    }

    // What a frame does that comes over a wire; or why it is refused, and nothing changes.
    fn hears(
        &mut self,
        wire: u8,
        frame: &mut [u8],
        tags: [u64; 4],
        out: &mut Outbox,
    ) -> Result<Option<Port>, Refusal>
        requires { out.old.used ≡ 0 }
        ensures unfit { (SumFits frame.old → ⊥) → HeardBy (refused_by 1 (whole_of self.old) self.old.quota frame.old) result self.old self.new out.old out.new frame.old frame.new }
        ensures read { SumFits frame.old → HeardBy (by_frame wire (frame_in (whole_of self.old).links.n (body_of frame.old)) tags (whole_of self.old) self.old.quota frame.old) result self.old self.new out.old out.new frame.old frame.new }
        ensures so { SumFits frame.old → (t : Told) → frame_in (whole_of self.old).links.n (body_of frame.old) ≡ Ok t → FrameDid wire t tags (whole_of self.old) (whole_of self.new) }
    {
        if !checksum::crc::sum_fits(frame) {
            return Err(Refusal::Form);
        }
        let end = frame.len() - 4;
        match frames::read_frame(&frame[..end], self.station.links().boxes()) {
            Ok(Frame::Hello(hello)) => self.hello(wire, hello)?,
            Ok(Frame::Words(words)) => self.words(wire, words, tags, out)?,
            Ok(Frame::Seen(seens)) => self.seens(wire, seens)?,
            Ok(Frame::Packet(_)) => return Ok(self.pass(frame, out)),
            Err(fault) => return Err(self.unread(wire, fault)),
        }
        Ok(None)
    }

    // A packet comes from a house, in a frame: any byte before it, and room for four behind it.
    pub fn house(&mut self, frame: &mut [u8], out: &mut Outbox) -> Option<Port>
        ensures { PassedBy (passed (whole_of self.old) self.old.quota frame.old) self.old self.new [] (contents out.new) frame.new result }
    {
        out.clear();
        if frame.len() < 5 {
            self.note_refused(Refusal::Malformed, out);
            return None;
        }
        self.pass(frame, out)
    }

    // A frame comes over a wire, with a tag for each word that it may make the box say. On a wire without a cost it is dropped.
    pub fn wire(
        &mut self,
        wire: u8,
        frame: &mut [u8],
        tags: [u64; 4],
        out: &mut Outbox,
    ) -> Option<Port>
        ensures dropped { (whole_of self.old).links.cost wire ≡ 0 → HandledBy (untouched [] (whole_of self.old) self.old.quota frame.old) self.new (contents out.new) frame.new result }
        ensures unfit { 0 < (whole_of self.old).links.cost wire → (SumFits frame.old → ⊥) → HandledBy (refused_by 1 (whole_of self.old) self.old.quota frame.old) self.new (contents out.new) frame.new result }
        ensures read { 0 < (whole_of self.old).links.cost wire → SumFits frame.old → HandledBy (by_frame wire (frame_in (whole_of self.old).links.n (body_of frame.old)) tags (whole_of self.old) self.old.quota frame.old) self.new (contents out.new) frame.new result }
        ensures so { 0 < (whole_of self.old).links.cost wire → SumFits frame.old → (t : Told) → frame_in (whole_of self.old).links.n (body_of frame.old) ≡ Ok t → FrameDid wire t tags (whole_of self.old) (whole_of self.new) }
    {
        out.clear();
        if self.station.links().cost(wire) == 0 {
            return None;
        }
        match self.hears(wire, frame, tags, out) {
            Ok(port) => port,
            Err(refusal) => {
                self.note_refused(refusal, out);
                None
            }
        }
    }
}
