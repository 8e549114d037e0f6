// A tick of the running box.
ghost use Rattle.std.specs.Prelude.{◌≡◌, ℕ, ◌<◌, None, slice_index_or};
ghost use Rattle.std.specs.List.{flat_map};
ghost use Rattle.node.specs.Giving.{Added, Full, said_gives, tick_all_gives, tick_leaves, told_over};
ghost use Rattle.node.specs.Handled.{TurnedBy};
ghost use Rattle.node.specs.State.{whole_of};
ghost use Rattle.node.specs.Wires.{out_bytes};
ghost use Rattle.outbox.specs.Parcels.{HasRoom, contents};
ghost use Rattle.station.specs.Events.{TellsDid, TickDid};
ghost use Rattle.station.specs.State.{station_of};
ghost use Rattle.station.specs.Ticking.{greeting_on, greetings_in, no_words, packet_on, tellings_in, ticking_refusal};

use crate::state::Node;
use messages::{Hello, Words};
use outbox::Outbox;
use station::{Station, Ticked};

// A hello goes out on a wire, if there is one.
fn give_greeting(wire: u8, hello: Option<Hello>, out: &mut Outbox)
    requires { HasRoom 1 out.old }
    ensures { Added 1 (flat_map out_bytes (greeting_on wire hello)) out.old out.new }
{
    if let Some(hello) = hello {
        out.give_hello(wire, hello);
    }
}

// The hellos of a tick go out, on rising wires.
fn give_hellos(hellos: &[Option<Hello>; 8], out: &mut Outbox)
    requires { HasRoom 8 out.old }
    ensures { Added 8 (flat_map out_bytes (greetings_in hellos.now 8)) out.old out.new }
{
    for (w, hello) in hellos.iter().enumerate() {
        give_greeting(w as u8, *hello, out);
    }
}

// A packet of words goes out on a wire, if there is anything in it.
pub(crate) fn give_packet(wire: u8, packet: Words, out: &mut Outbox)
    requires { (HasRoom 1 out.old) × (Full packet) }
    ensures { Added 1 (flat_map out_bytes (packet_on wire packet)) out.old out.new }
{
    if packet.count > 0 {
        out.give_words(wire, packet);
    }
}

// The words for a box go out over the lowest open wire to it.
fn give_telling(station: &Station, to: u8, words: &[Words; 8], out: &mut Outbox)
    requires { (HasRoom 1 out.old) × (((w : ℕ) → w < 8 → Full (slice_index_or words.now w no_words))) }
    ensures { Added 1 (flat_map out_bytes (told_over words.now to (station_of station.now).links)) out.old out.new }
{
    if let Some(wire) = station.open_wire(to) {
        give_packet(wire, words[wire as usize], out);
    }
}

// The words of a tick go out, for rising boxes.
fn give_tellings(station: &Station, words: &[Words; 8], out: &mut Outbox)
    requires { (HasRoom 64 out.old) × (((w : ℕ) → w < 8 → Full (slice_index_or words.now w no_words))) }
    ensures { Added 64 (flat_map out_bytes (tellings_in words.now (station_of station.now).links (station_of station.now).links.n)) out.old out.new }
{
    let n = station.links().boxes();
    for to in 0..n {
        give_telling(station, to, words, out);
    }
}

impl Node {
    // The line for the word that it said, if it said one.
    fn note_if_said(&self, said: bool, out: &mut Outbox)
        requires { HasRoom 1 out.old }
        ensures { Added 1 (said_gives said (whole_of self.now)) out.old out.new }
    {
        if said {
            self.note_own(out);
        }
    }

    // A tick passes, with a tag for the word that the box may say: what is too old is dropped, a word is said if one is owed, and hellos and words go out.
    pub fn tick(&mut self, tag: u64, out: &mut Outbox)
        ensures turned { TurnedBy (tick_leaves tag (whole_of self.old)) (tick_all_gives tag (whole_of self.old)) self.old self.new (contents out.new) }
        ensures so { ticking_refusal (whole_of self.old) ≡ None → TickDid tag (whole_of self.old) (whole_of self.new) × TellsDid (whole_of self.new) }
    {
        out.clear();
        match self.station.tick(tag) {
            Ok(ticked) => {
                self.station = ticked.station;
                self.note_if_said(ticked.said, out);
                give_hellos(&ticked.hellos, out);
                give_tellings(&self.station, &ticked.words, out);
            }
            Err(refusal) => self.note_refused(refusal.into(), out),
        }
    }
}
