// The bytes of what was seen: 3, the drawn number, how many, and the numbers of each word.
ghost use Rattle.std.specs.Prelude.{◌≡◌};
ghost use Rattle.octets.specs.Reads.{with_left};
ghost use Rattle.wordframes.specs.Reading.{blank_id, id_in, low_count, seens_in};
ghost use Rattle.wordframes.specs.Writing.{bytes_of_id, bytes_of_seens, Wrote};
ghost use Rattle.wordframes.specs.Blanks.{zero_id};

use crate::batch::{Item, put_batch, read_batch};
use crate::id_bytes::{id, put_id};
use messages::{Seens, WordId};
use octets::{Fault, Reader};

impl Item for WordId {
    ghost can_read = { λ n. Unit {0} };

    ghost reads = { id_in };

    ghost low = { low_count };

    ghost bytes = { bytes_of_id };

    ghost blank = { blank_id };

    ghost zeros = { zero_id };

    fn read(reader: &mut Reader, n: u8) -> Result<WordId, Fault> {
        id(reader, n)
    }

    fn is_low(self) -> bool {
        self.is_counted()
    }

    fn size(self) -> usize {
        17
    }

    fn put(self, out: &mut [u8], at: usize) -> usize {
        put_id(out, at, self)
    }
}

// What follows the kind, to the end.
pub fn read_seens(reader: &mut Reader, n: u8) -> Result<Seens, Fault>
    ensures { seens_in n reader.old.left.now ≡ with_left result reader.new.left.now }
{
    read_batch(reader, n)
}

// The frame's bytes at the front of `out` and how many there are, or nothing where they do not fit.
pub fn put_seens(seens: Seens, out: &mut [u8]) -> Option<usize>
    ensures { Wrote (bytes_of_seens seens) out.old result out.new }
{
    put_batch(out, 3, seens)
}
