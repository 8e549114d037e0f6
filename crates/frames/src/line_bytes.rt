// The bytes of a journal line: 5, the tick, which kind of entry, and the entry. Lines follow each other with nothing between.
ghost use Rattle.std.specs.Prelude.{◌≡◌, ℕ, ◌+◌, ◌≤◌, length, IfOk};
ghost use Rattle.octets.specs.Reads.{with_left};
ghost use Rattle.octets.specs.Writes.{Bytes, put, Wrote};
ghost use Rattle.frames.specs.Ranges.{LineAgain, OnlyLine};
ghost use Rattle.frames.specs.Reading.{and_after, counted_in, entry_in, line_in};
ghost use Rattle.frames.specs.Writing.{bytes_of_entry, bytes_of_line};

use crate::settings_bytes::boxes;
use crate::values::{Entry, Line};
use messages::Word;
use octets::{Fault, Reader, put_byte, put_number};
use wordframes::{put_word, read_word, word_length};

// A word whose count is below 2^63.
fn counted_word(reader: &mut Reader, n: u8) -> Result<Word, Fault>
    requires { n ≤ 64 }
    ensures { counted_in n reader.old.left.now ≡ with_left result reader.new.left.now }
{
    let word = read_word(reader, n)?;
    if !word.id.is_counted() {
        return Err(Fault::Count);
    }
    Ok(word)
}

// What follows the byte `kind` of a line.
fn entry(reader: &mut Reader, n: u8, kind: u8) -> Result<Entry, Fault>
    requires { n ≤ 64 }
    ensures { entry_in n kind reader.old.left.now ≡ with_left result reader.new.left.now }
{
    match kind {
        0 => {
            let boxes = boxes(reader)?;
            let me = reader.below(boxes)?;
            Ok(Entry::Began(boxes, me))
        }
        1 => {
            let word = counted_word(reader, n)?;
            Ok(Entry::Said(word))
        }
        2 => {
            let word = counted_word(reader, n)?;
            Ok(Entry::Taken(word))
        }
        3 => {
            let number = reader.byte()?;
            Ok(Entry::Refused(number))
        }
        _ => Err(Fault::Form),
    }
}

fn line(reader: &mut Reader, n: u8) -> Result<Line, Fault>
    requires { n ≤ 64 }
    ensures reads { line_in n reader.old.left.now ≡ with_left result reader.new.left.now }
    ensures fits { Bytes reader.old.left.now }
{
    let kind = reader.byte()?;
    if kind != 5 {
        return Err(Fault::Form);
    }
    let tick = reader.number(4)?;
    let which = reader.byte()?;
    let what = entry(reader, n, which)?;
    Ok(Line {
        tick: tick as u32,
        what,
    })
}

// The line at the front of these bytes, where there are `n` boxes, and how long it was. A line that the box began or fell brings its own number of boxes,
// and `n` says nothing of it: whoever reads on takes that number for the lines after it.
pub fn read_line(bytes: &[u8], n: u8) -> Result<(Line, usize), Fault>
    requires { n ≤ 64 }
    ensures reads { line_in n bytes.now ≡ and_after result bytes.now }
    ensures only { OnlyLine n bytes.now result }
    ensures long { IfOk result (λ t. t.1 ≡ length (bytes_of_line t.0)) }
{
    let mut reader = Reader { left: bytes };
    let line = line(&mut reader, n)?;
    Ok((line, bytes.len() - reader.left.len()))
}

fn entry_length(entry: Entry) -> usize
    ensures known { result ≡ length (bytes_of_entry entry) }
    ensures small { result ≤ 211 }
{
    match entry {
        Entry::Began(_, _) => 3,
        Entry::Said(word) | Entry::Taken(word) => 1 + word_length(word),
        Entry::Refused(_) => 2,
    }
}

// Writes an entry from the place `at` on, and gives the place after it.
fn put_entry(out: &mut [u8], at: usize, entry: Entry) -> usize
    requires { at + length (bytes_of_entry entry) ≤ length out.old }
    ensures next { result ≡ at + length (bytes_of_entry entry) }
    ensures wrote { out.new ≡ put at (bytes_of_entry entry) out.old }
{
    match entry {
        Entry::Began(boxes, me) => {
            let at = put_byte(out, at, 0);
            let at = put_byte(out, at, boxes);
            put_byte(out, at, me)
        }
        Entry::Said(word) => {
            let at = put_byte(out, at, 1);
            put_word(out, at, word)
        }
        Entry::Taken(word) => {
            let at = put_byte(out, at, 2);
            put_word(out, at, word)
        }
        Entry::Refused(number) => {
            let at = put_byte(out, at, 3);
            put_byte(out, at, number)
        }
    }
}

// The line's bytes at the front of `out` and how many there are, or nothing where they do not fit.
pub fn write_line(line: Line, out: &mut [u8]) -> Option<usize>
    ensures wrote { Wrote (bytes_of_line line) out.old result out.new }
    ensures again { LineAgain line result out.new }
{
    if out.len() < 5 + entry_length(line.what) {
        return None;
    }
    let at = put_byte(out, 0, 5);
    let at = put_number(out, at, 4, u64::from(line.tick));
    Some(put_entry(out, at, line.what))
}
