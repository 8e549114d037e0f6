// Numbers that are drawn.
ghost use Rattle.std.specs.Prelude.{◌≡◌};
ghost use Rattle.ground.specs.Wires.{Drew, drawn_of};

use crate::state::Ground;

impl Ground {
    // The next number, which was never drawn before; the largest again once it was drawn.
    pub fn draw(&mut self) -> u64
        ensures is { result ≡ drawn_of self.new }
        ensures drew { Drew self.old self.new }
    {
        self.drawn = self.drawn.saturating_add(1);
        self.drawn
    }
}
