// How many errors a box makes: at most ten in each second.
ghost use Rattle.std.specs.Prelude.{◌≡◌};
ghost use Rattle.packets.specs.Quotas.{AtMostTen, granted, left_of, unspent};

const TICKS: u32 = 10;

const ERRORS: u8 = 10;

// The last second in which an error was made, and how many were.
#[derive(Clone, Copy, Debug, PartialEq, Eq)]
pub struct Quota {
    pub(crate) second: u32,
    pub(crate) made: u8,
}

impl Quota {
    pub fn new() -> Quota
        ensures { result ≡ unspent }
    {
        Quota { second: 0, made: 0 }
    }

    // What is left after an error at this tick, or nothing where none may be made; the quota then stays.
    pub fn grant(self, tick: u32) -> Option<Quota>
        ensures is { left_of self result ≡ granted self tick }
        ensures few { AtMostTen }
    {
        let second = tick / TICKS;
        if second != self.second {
            return Some(Quota { second, made: 1 });
        }
        if self.made >= ERRORS {
            return None;
        }
        let made = self.made + 1;
        Some(Quota { second, made })
    }
}
