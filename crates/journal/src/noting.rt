// Noting one line after the other.
ghost use Rattle.std.specs.Prelude.{◌≡◌, ◌-◌, ◌≤◌};
ghost use Rattle.frames.specs.Ranges.{EntryInRange};
ghost use Rattle.journal.specs.Replay.{begun, noted};
ghost use Rattle.journal.specs.State.{known_by, known_of};
ghost use Rattle.journal.specs.Turns.{Turned};

use crate::memory::Memory;
use crate::notes::Notes;
use database::Database;
use frames::{Entry, Fault, read_line};

impl Notes {
    // A box among n that has no words; none among none.
    pub(crate) fn begun(n: u8, me: u8) -> Notes
        requires { (n ≤ 64) × (me ≤ n - 1) }
        ensures { known_by result ≡ begun n me }
    {
        Notes {
            n,
            me,
            words: Database::new(),
        }
    }

    // Notes what a line says.
    fn note(&mut self, entry: Entry)
        requires { EntryInRange self.old.n entry }
        ensures { known_by self.new ≡ noted entry (known_by self.old) }
    {
        match entry {
            Entry::Began(n, me) => *self = Notes::begun(n, me),
            Entry::Said(word) | Entry::Taken(word) => self.words.put(word),
            Entry::Refused(_) => {}
        }
    }

    // Notes the line in front of what is left, if there is one that comes no later than `until`, and gives how long it was.
    pub(crate) fn note_line(&mut self, left: &[u8], until: u32) -> Result<Option<usize>, Fault>
        ensures { Turned until left.now (known_by self.old) (known_by self.new) result }
    {
        if left.is_empty() {
            return Ok(None);
        }
        let (line, long) = read_line(left, self.n)?;
        if line.tick > until {
            return Ok(None);
        }
        self.note(line.what);
        Ok(Some(long))
    }

    // With the least ways by the words.
    pub(crate) fn remembered(self) -> Memory
        ensures { known_of result ≡ known_by self }
    {
        let table = self.words.ways(self.n, self.me);
        Memory { notes: self, table }
    }
}
