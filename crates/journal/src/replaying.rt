// Replaying a journal up to a tick.
ghost use Rattle.std.specs.Prelude.{◌≡◌, ◌≤◌, length, drop};
ghost use Rattle.journal.specs.Laws.{Enough, Grows, GrowsByAll, Stops};
ghost use Rattle.journal.specs.Replay.{replay};
ghost use Rattle.journal.specs.State.{known_of};

use crate::memory::Memory;
use crate::notes::Notes;
use frames::Fault;

// What was known then, how many of the bytes say so, and what is wrong with the line after them, if that is why no more was read.
#[derive(Clone, Copy, Debug, PartialEq, Eq)]
pub struct Outcome {
    pub memory: Memory,
    pub place: usize,
    pub fault: Option<Fault>,
}

// What a journal says up to the tick `until`. It stops before the first line of a later tick, and before a line that cannot be read.
pub fn replay(bytes: &[u8], until: u32) -> Outcome
    ensures known { known_of result.memory ≡ (replay until bytes.now).known }
    ensures within { result.place ≤ length bytes.now }
    ensures left { drop result.place bytes.now ≡ (replay until bytes.now).left }
    ensures fault { result.fault ≡ (replay until bytes.now).fault }
    ensures enough { Enough }
    ensures grows { Grows }
    ensures by_all { GrowsByAll }
    ensures stops { Stops }
{
    let mut notes = Notes::begun(0, 0);
    let mut place = 0;
    let fault = loop {
        match notes.note_line(&bytes[place..], until) {
            Ok(Some(long)) => place += long,
            Ok(None) => break None,
            Err(fault) => break Some(fault),
        }
    };
    Outcome {
        memory: notes.remembered(),
        place,
        fault,
    }
}
