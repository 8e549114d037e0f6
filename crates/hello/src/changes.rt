// A box is switched on, ticks, gets other settings and falls.
ghost use Rattle.hello.specs.State.{RefusedBy, fall_refusal, links_of, new_refusal, settings_refusal, tick_refusal};
ghost use Rattle.linkmodel.specs.Links.{fell, fresh, passes, rewired};
ghost use Rattle.messages.specs.Values.{at};
ghost use Rattle.std.specs.Prelude.{◌≡◌, IfOk};

use crate::answers::Refusal;
use crate::state::{Links, Wire};
use messages::Settings;

impl Links {
    // Box `me` of `n`, with no wires yet.
    // Kept: two numbers, here and where a box is made of them. A struct of any two would say nothing, and one of a box that there is would ask of the caller what this call is there to refuse.
    pub fn new(n: u8, me: u8, drawn: u64) -> Result<Links, Refusal>
        ensures refused { RefusedBy (new_refusal n me drawn) result }
        ensures is { IfOk result (λ s. links_of s ≡ fresh n me drawn) }
    {
        if me >= n || n > 64 || drawn == 0 {
            return Err(Refusal::OutOfRange);
        }
        Ok(Links {
            n,
            me,
            drawn,
            tick: 0,
            costs: [0; 8],
            wires: [Wire::Silent; 8],
            last: [0; 64],
        })
    }

    // One tick passes, and what is too old is forgotten.
    pub fn tick(mut self) -> Result<Links, Refusal>
        ensures refused { RefusedBy (tick_refusal (links_of self)) result }
        ensures is { IfOk result (λ s. links_of s ≡ passes (links_of self)) }
    {
        if self.tick == u32::MAX {
            return Err(Refusal::Spent);
        }
        self.tick += 1;
        let now = self.tick;
        self.wires = self.wires.map(|wire| wire.aged(now));
        Ok(self)
    }

    // The wires cost what the settings say; one that isn't there any more is forgotten.
    pub fn rewire(mut self, settings: Settings) -> Result<Links, Refusal>
        ensures refused { RefusedBy (settings_refusal settings (links_of self)) result }
        ensures is { IfOk result (λ s. links_of s ≡ rewired (at settings.costs) (links_of self)) }
    {
        if settings.boxes != self.n || settings.me != self.me {
            return Err(Refusal::OutOfRange);
        }
        let wires = self.wires;
        let costs = settings.costs;
        self.wires = std::array::from_fn(|w| wires[w].costed(costs[w]));
        self.costs = costs;
        Ok(self)
    }

    // It falls: nothing was heard, and a new number is drawn. Its wires and its ticks stay.
    pub fn falls(mut self, drawn: u64) -> Result<Links, Refusal>
        ensures refused { RefusedBy (fall_refusal drawn) result }
        ensures is { IfOk result (λ s. links_of s ≡ fell drawn (links_of self)) }
    {
        if drawn == 0 {
            return Err(Refusal::OutOfRange);
        }
        self.drawn = drawn;
        self.wires = [Wire::Silent; 8];
        self.last = [0; 64];
        Ok(self)
    }
}
