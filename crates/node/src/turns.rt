// A box is switched on, gets other settings and falls.
ghost use Rattle.std.specs.Prelude.{◌≡◌, [], IfOk};
ghost use Rattle.model.specs.Box.{Stands};
ghost use Rattle.node.specs.Handled.{TurnedBy};
ghost use Rattle.node.specs.State.{whole_of};
ghost use Rattle.node.specs.Turns.{BegunBy, RewiredBy, begun_by, fall_did, fall_gives, fall_leaves, settings_did, settings_give, settings_leave};
ghost use Rattle.outbox.specs.Parcels.{contents};
ghost use Rattle.frames.specs.Reading.{settings_in, value_in};
ghost use Rattle.station.specs.Events.{Did};

use crate::refusals::Refusal;
use crate::state::Node;
use outbox::Outbox;
use packets::Quota;
use station::Station;

impl Node {
    // A box with these settings and this drawn number; or what is wrong with them, and nothing is given out.
    pub fn begin(settings: &[u8], drawn: u64, out: &mut Outbox) -> Result<Node, Refusal>
        ensures begun { BegunBy (begun_by (value_in (settings_in settings.now)) drawn) result (contents out.new) }
        ensures so { IfOk result (λ node. Stands (whole_of node).box []) }
    {
        out.clear();
        let settings = frames::read_settings(settings)?;
        let node = Node {
            station: Station::new(settings.boxes, settings.me, drawn)?.rewire(settings)?,
            quota: Quota::new(),
        };
        node.note_began(out);
        Ok(node)
    }

    // The wires as these settings have them.
    fn rewired(&self, settings: &[u8]) -> Result<Station, Refusal>
        ensures { RewiredBy (value_in (settings_in settings.now)) (whole_of self.now) result }
    {
        let settings = frames::read_settings(settings)?;
        Ok(self.station.rewire(settings)?)
    }

    // Settings come: the wires cost what they say.
    pub fn settings(&mut self, settings: &[u8], out: &mut Outbox)
        ensures turned { TurnedBy (settings_leave (value_in (settings_in settings.now)) (whole_of self.old)) (settings_give (value_in (settings_in settings.now)) (whole_of self.old)) self.old self.new (contents out.new) }
        ensures so { Did (whole_of self.old) (settings_did (value_in (settings_in settings.now)) (whole_of self.old)) (whole_of self.new) }
    {
        out.clear();
        match self.rewired(settings) {
            Ok(station) => self.station = station,
            Err(refusal) => self.note_refused(refusal, out),
        }
    }

    // The box falls, and draws a new number: all that it knew is gone, and its roads close. Its wires, its ticks and the errors made in this second stay.
    pub fn fall(&mut self, drawn: u64, out: &mut Outbox)
        ensures turned { TurnedBy (fall_leaves drawn (whole_of self.old)) (fall_gives drawn (whole_of self.old)) self.old self.new (contents out.new) }
        ensures so { Did (whole_of self.old) (fall_did drawn (whole_of self.old)) (whole_of self.new) }
    {
        out.clear();
        match self.station.falls(drawn) {
            Ok(station) => {
                self.station = station;
                self.note_began(out);
            }
            Err(refusal) => self.note_refused(refusal.into(), out),
        }
    }
}
