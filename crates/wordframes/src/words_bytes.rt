// The bytes of words: 2, the drawn number, how many, and each word: its numbers, how many roads, and the roads.
ghost use Rattle.std.specs.Prelude.{◌≡◌, ℕ, ◌+◌, ◌*◌, ◌≤◌, length};
ghost use Rattle.octets.specs.Reads.{with_left};
ghost use Rattle.octets.specs.Writes.{put};
ghost use Rattle.wordframes.specs.Reading.{blank_word, low_word, word_in, words_in};
ghost use Rattle.wordframes.specs.Writing.{bytes_of_word, bytes_of_words, Wrote};
ghost use Rattle.wordframes.specs.Blanks.{zero_word};

use crate::batch::{Item, put_batch, read_batch};
use crate::id_bytes::{id, put_id};
use crate::roads_bytes::{put_roads, road_count, roads};
use messages::{Word, Words};
use octets::{Fault, Reader, put_byte};

impl Item for Word {
    ghost can_read = { λ n. n ≤ 64 };

    ghost reads = { word_in };

    ghost low = { low_word };

    ghost bytes = { bytes_of_word };

    ghost blank = { blank_word };

    ghost zeros = { zero_word };

    fn read(reader: &mut Reader, n: u8) -> Result<Word, Fault> {
        read_word(reader, n)
    }

    fn is_low(self) -> bool {
        self.id.is_counted()
    }

    fn size(self) -> usize {
        word_length(self)
    }

    fn put(self, out: &mut [u8], at: usize) -> usize {
        put_word(out, at, self)
    }
}

// Kept: `n` is a number beside the reader, and `n ≤ 64` stands here, at `read_words`, at `roads`, whose costs have 64 places, and at the readers of frames and journal lines that call these. A type for at most 64 boxes would ask more of callers of `read_seens`, which takes any `n`.
pub fn read_word(reader: &mut Reader, n: u8) -> Result<Word, Fault>
    requires { n ≤ 64 }
    ensures { word_in n reader.old.left.now ≡ with_left result reader.new.left.now }
{
    let id = id(reader, n)?;
    let count = reader.byte()?;
    if count > 8 {
        return Err(Fault::Range);
    }
    let costs = roads(reader, n, id.about, count)?;
    Ok(Word { id, costs })
}

// What follows the kind, to the end.
pub fn read_words(reader: &mut Reader, n: u8) -> Result<Words, Fault>
    requires { n ≤ 64 }
    ensures { words_in n reader.old.left.now ≡ with_left result reader.new.left.now }
{
    read_batch(reader, n)
}

// How many bytes a word has.
pub fn word_length(word: Word) -> usize
    ensures known { result ≡ length (bytes_of_word word) }
    ensures small { result ≤ 210 }
{
    18 + 3 * usize::from(road_count(word.costs))
}

// Writes a word from the place `at` on, and gives the place after it.
pub fn put_word(out: &mut [u8], at: usize, word: Word) -> usize
    requires { at + length (bytes_of_word word) ≤ length out.old }
    ensures next { result ≡ at + length (bytes_of_word word) }
    ensures wrote { out.new ≡ put at (bytes_of_word word) out.old }
{
    let at = put_id(out, at, word.id);
    let at = put_byte(out, at, road_count(word.costs));
    put_roads(out, at, word.costs)
}

// The frame's bytes at the front of `out` and how many there are, or nothing where they do not fit.
pub fn put_words(words: Words, out: &mut [u8]) -> Option<usize>
    ensures { Wrote (bytes_of_words words) out.old result out.new }
{
    put_batch(out, 2, words)
}
