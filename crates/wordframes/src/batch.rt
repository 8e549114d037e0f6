// The bytes of one to four of a kind, as words and what was seen have them: the kind, the drawn number, how many, and each.
ghost use Rattle.std.specs.Prelude.{◌≡◌, ℕ, ◌+◌, ◌≤◌, Bool, List, ◌∷◌, length, take};
ghost use Rattle.std.specs.List.{flat_map};
ghost use Rattle.octets.specs.Reads.{Read, with_left};
ghost use Rattle.octets.specs.Writes.{put, Wrote};
ghost use Rattle.wordframes.specs.Reading.{batch_in, each, four_in, packet};
ghost use Rattle.wordframes.specs.Writing.{bytes_of_row};

use crate::id_bytes::how_many;
use messages::Packet;
use octets::{Fault, Reader, put_byte, put_number};

// What packets hold one to four of: words, or the numbers of words.
pub trait Item: Copy + Default {
    // At how many boxes one may be read, how it is read then, whether its count is below 2^63, its bytes, and what stands past the last one.
    ghost can_read: { ℕ → Type 0 };

    ghost reads: { ℕ → Read Self };

    ghost low: { Self → Bool };

    ghost bytes: { Self → List ℕ };

    ghost blank: { Self };

    fn read(reader: &mut Reader, n: u8) -> Result<Self, Fault>
        requires { can_read n }
        ensures { reads n reader.old.left.now ≡ with_left result reader.new.left.now };

    fn is_low(self) -> bool
        ensures { result ≡ low self };

    // How many bytes it has.
    fn size(self) -> usize
        ensures known { result ≡ length (bytes self) }
        ensures small { result ≤ 210 };

    // Writes it from the place `at` on, and gives the place after it.
    fn put(self, out: &mut [u8], at: usize) -> usize
        requires { at + length (bytes self) ≤ length out.old }
        ensures next { result ≡ at + length (bytes self) }
        ensures wrote { out.new ≡ put at (bytes self) out.old };

    // The default is all zeros.
    ghost zeros: { (x : Self) → Self.is_default x → x ≡ blank };
}

// So many of them, one after the other, and blanks after those.
fn four<T: Item>(reader: &mut Reader, n: u8, count: u8) -> Result<[T; 4], Fault>
    requires { T.can_read n × (count ≤ 4) }
    ensures { four_in (T.reads n) T.blank count reader.old.left.now ≡ with_left result reader.new.left.now }
{
    let mut items = [T::default(); 4];
    for item in &mut items[..usize::from(count)] {
        *item = T::read(reader, n)?;
    }
    Ok(items)
}

fn all_low<T: Item>(items: &[T]) -> bool
    ensures { result ≡ each T.low items.now }
{
    items.iter().all(|item| item.is_low())
}

// What follows the kind, to the end: the drawn number, how many, and each.
pub fn read_batch<T: Item>(reader: &mut Reader, n: u8) -> Result<Packet<T>, Fault>
    requires { T.can_read n }
    ensures { batch_in (T.reads n) T.blank T.low packet reader.old.left.now ≡ with_left result reader.new.left.now }
{
    let drawn = reader.positive(8)?;
    let count = how_many(reader)?;
    let items = four(reader, n, count)?;
    reader.end()?;
    if !all_low(&items) {
        return Err(Fault::Count);
    }
    Ok(Packet {
        drawn,
        count,
        items,
    })
}

// How many bytes they have.
fn size_of_all<T: Item>(items: &[T]) -> usize
    requires { length items.now ≤ 4 }
    ensures known { result ≡ length (flat_map T.bytes items.now) }
    ensures small { result ≤ 840 }
{
    items.iter().map(|item| item.size()).sum()
}

// Writes them from the place `at` on, and gives the place after them.
fn put_all<T: Item>(out: &mut [u8], at: usize, items: &[T]) -> usize
    requires { at + length (flat_map T.bytes items.now) ≤ length out.old }
    ensures next { result ≡ at + length (flat_map T.bytes items.now) }
    ensures wrote { out.new ≡ put at (flat_map T.bytes items.now) out.old }
{
    let mut next = at;
    for item in items {
        next = item.put(out, next);
    }
    next
}

// The frame's bytes at the front of `out` and how many there are, or nothing where they do not fit.
pub fn put_batch<T: Item>(out: &mut [u8], kind: u8, packet: Packet<T>) -> Option<usize>
    ensures { Wrote (kind ∷ bytes_of_row T.bytes packet.drawn packet.count (take packet.count packet.items)) out.old result out.new }
{
    let items = packet.held();
    if out.len() < 10 + size_of_all(items) {
        return None;
    }
    let at = put_byte(out, 0, kind);
    let at = put_number(out, at, 8, packet.drawn);
    let at = put_byte(out, at, packet.count);
    Some(put_all(out, at, items))
}
