// The bytes of a word's numbers: the box, the count and the tag, 1, 8 and 8 bytes.
ghost use Rattle.std.specs.Prelude.{◌≡◌, ℕ, ◌+◌, ◌≤◌, length, IfOk};
ghost use Rattle.octets.specs.Reads.{with_left};
ghost use Rattle.octets.specs.Writes.{put};
ghost use Rattle.wordframes.specs.Reading.{how_many, id_in};
ghost use Rattle.wordframes.specs.Writing.{bytes_of_id};

use messages::WordId;
use octets::{Fault, Reader, put_byte, put_number};

// How many words or numbers follow: 1 to 4.
pub fn how_many(reader: &mut Reader) -> Result<u8, Fault>
    ensures reads { how_many reader.old.left.now ≡ with_left result reader.new.left.now }
    ensures fits { IfOk result (λ k. k ≤ 4) }
{
    match reader.byte()? {
        count @ 1..=4 => Ok(count),
        _ => Err(Fault::Form),
    }
}

// The numbers of a word of a box below `n`.
pub fn id(reader: &mut Reader, n: u8) -> Result<WordId, Fault>
    ensures { id_in n reader.old.left.now ≡ with_left result reader.new.left.now }
{
    let about = reader.below(n)?;
    let count = reader.positive(8)?;
    let tag = reader.number(8)?;
    Ok(WordId { about, count, tag })
}

// Writes the numbers from the place `at` on, and gives the place after them.
pub fn put_id(out: &mut [u8], at: usize, id: WordId) -> usize
    requires { at + 17 ≤ length out.old }
    ensures next { result ≡ at + 17 }
    ensures wrote { out.new ≡ put at (bytes_of_id id) out.old }
{
    let at = put_byte(out, at, id.about);
    let at = put_number(out, at, 8, id.count);
    put_number(out, at, 8, id.tag)
}
