// Lines of the journal.
ghost use Rattle.node.specs.Book.{Began as BeganNote, Refused as RefusedNote, Said as SaidNote};
ghost use Rattle.node.specs.Giving.{Added, note_of, noted, own_item};
ghost use Rattle.node.specs.Refusals.{number_of};
ghost use Rattle.node.specs.State.{whole_of};
ghost use Rattle.outbox.specs.Parcels.{HasRoom};

use crate::refusals::Refusal;
use crate::state::Node;
use frames::{Entry, Line};
use outbox::Outbox;

impl Node {
    // A line of this tick.
    pub(crate) fn note(&self, what: Entry, out: &mut Outbox)
        requires { HasRoom 1 out.old }
        ensures { Added 1 (note_of (whole_of self.now) (noted what)) out.old out.new }
    {
        out.note(Line {
            tick: self.station.links().now(),
            what,
        });
    }

    // That it refused something.
    pub(crate) fn note_refused(&self, refusal: Refusal, out: &mut Outbox)
        requires { HasRoom 1 out.old }
        ensures { Added 1 (note_of (whole_of self.now) (RefusedNote (number_of refusal))) out.old out.new }
    {
        self.note(Entry::Refused(refusal.into()), out);
    }

    // That it began or fell.
    pub(crate) fn note_began(&self, out: &mut Outbox)
        requires { HasRoom 1 out.old }
        ensures { Added 1 (note_of (whole_of self.now) (BeganNote (whole_of self.now).links.n (whole_of self.now).links.me)) out.old out.new }
    {
        let links = self.station.links();
        self.note(Entry::Began(links.boxes(), links.box_number()), out);
    }

    // That it said the word that it has of itself.
    pub(crate) fn note_own(&self, out: &mut Outbox)
        requires { HasRoom 1 out.old }
        ensures { Added 1 (note_of (whole_of self.now) (SaidNote (own_item (whole_of self.now)))) out.old out.new }
    {
        let router = self.station.router();
        let word = router.word(router.box_number()).unwrap();
        self.note(Entry::Said(word), out);
    }
}
