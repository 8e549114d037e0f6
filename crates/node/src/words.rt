// A packet of words is noted and answered.
ghost use Rattle.std.specs.Prelude.{◌≡◌, ◌^◌, ◌<◌};
ghost use Rattle.std.specs.List.{flat_map};
ghost use Rattle.node.specs.Giving.{Added, Full, note_of};
ghost use Rattle.node.specs.Hearing.{Counted, FullSeens, note_for, notes_for, said_above};
ghost use Rattle.node.specs.State.{whole_of};
ghost use Rattle.node.specs.Wires.{out_bytes};
ghost use Rattle.station.specs.Hearing.{answer_on, shown_on};
ghost use Rattle.station.specs.Ticking.{item_of};
ghost use Rattle.outbox.specs.Parcels.{HasRoom};

use crate::state::Node;
use crate::ticking;
use frames::Entry;
use messages::{Seens, Word, WordId, Words};
use outbox::Outbox;
use router::Outcome;

impl Node {
    // The word that the box says above one that it was told.
    fn said_above(&self, word: Word, tag: u64) -> Word
        requires { word.id.count < 2 ^ 63 }
        ensures { item_of result ≡ said_above (item_of word) tag (whole_of self.now) }
    {
        let router = self.station.router();
        Word {
            id: WordId {
                about: router.box_number(),
                count: word.id.count + 1,
                tag,
            },
            costs: router.roads(),
        }
    }

    // The line for a word that came, if there is one. Its box is as it was before the packet.
    fn note_outcome(&self, outcome: Option<Outcome>, word: Word, tag: u64, out: &mut Outbox)
        requires { (HasRoom 1 out.old) × (word.id.count < 2 ^ 63) }
        ensures { Added 1 (flat_map (note_of (whole_of self.now)) (note_for outcome (item_of word) tag (whole_of self.now))) out.old out.new }
    {
        match outcome {
            Some(Outcome::Taken) => self.note(Entry::Taken(word), out),
            Some(Outcome::Said) => self.note(Entry::Said(self.said_above(word, tag)), out),
            _ => {}
        }
    }

    // The lines for all words of a packet.
    // Kept: a zip of the three gives pairs of pairs, which reads no plainer than one index into the two arrays.
    pub(crate) fn note_words(
        &self,
        outcomes: [Option<Outcome>; 4],
        words: Words,
        tags: [u64; 4],
        out: &mut Outbox,
    )
        requires { (HasRoom 4 out.old) × (Counted words) }
        ensures { Added 4 (flat_map (note_of (whole_of self.now)) (notes_for outcomes words.items tags (whole_of self.now) words.count)) out.old out.new }
    {
        let told = words.held();
        for (k, word) in told.iter().enumerate() {
            self.note_outcome(outcomes[k], *word, tags[k], out);
        }
    }
}

// A packet of seens goes out on a wire, if there is anything in it.
// Kept: one function for seens and for words would take the count and a closure for the writer, which is longer than the two tests.
fn give_shown(wire: u8, seens: Seens, out: &mut Outbox)
    requires { (HasRoom 1 out.old) × (FullSeens seens) }
    ensures { Added 1 (flat_map out_bytes (shown_on wire seens)) out.old out.new }
{
    if seens.count > 0 {
        out.give_seens(wire, seens);
    }
}

// The answers to a packet of words: seens, and then newer words.
pub(crate) fn give_answers(wire: u8, seens: Seens, words: Words, out: &mut Outbox)
    requires { (HasRoom 2 out.old) × ((FullSeens seens) × (Full words)) }
    ensures { Added 2 (flat_map out_bytes (answer_on wire seens words)) out.old out.new }
{
    give_shown(wire, seens, out);
    ticking::give_packet(wire, words, out);
}
