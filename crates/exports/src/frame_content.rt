// What a frame holds, as numbers.
ghost use Rattle.exports.specs.Content.{costs_left, four_numbers, hello_numbers, numbers_left, numbers_of};
ghost use Rattle.frames.specs.Reading.{a_packet, frame_in, told_by};
ghost use Rattle.std.specs.Prelude.{◌≡◌};

use crate::frame_bytes::frame;
use frames::Frame;
use messages::{Hello, WordId};

fn hello_numbers(hello: Hello) -> [u64; 16]
    ensures { result ≡ hello_numbers hello }
{
    let mut numbers = [0; 16];
    numbers[..4].copy_from_slice(&[1, u64::from(hello.from), hello.drawn, hello.heard]);
    numbers
}

fn packet_numbers(bytes: &[u8]) -> [u64; 16]
    ensures { result ≡ numbers_of (a_packet bytes.now) }
{
    let mut numbers = [0; 16];
    numbers[..2].copy_from_slice(&[4, bytes.len() as u64]);
    numbers
}

// Kept: one row written out. Tried over `items.map(..)` and `as_flattened`; the proof didn't close, since which number stands where in the flattened rows isn't known.
fn four_numbers(kind: u64, count: u8, drawn: u64, items: [WordId; 4]) -> [u64; 16]
    ensures { result ≡ four_numbers kind count drawn items }
{
    let [a, b, c, d] = items;
    [
        kind,
        u64::from(count),
        drawn,
        0,
        u64::from(a.about),
        a.count,
        a.tag,
        u64::from(b.about),
        b.count,
        b.tag,
        u64::from(c.about),
        c.count,
        c.tag,
        u64::from(d.about),
        d.count,
        d.tag,
    ]
}

fn numbers(frame: Frame) -> [u64; 16]
    ensures { result ≡ numbers_of (told_by frame.entry) }
{
    match frame {
        Frame::Hello(hello) => hello_numbers(hello),
        Frame::Words(words) => four_numbers(2, words.count, words.drawn, words.ids()),
        Frame::Seen(seens) => four_numbers(3, seens.count, seens.drawn, seens.items),
        Frame::Packet(bytes) => packet_numbers(bytes),
    }
}

// The numbers that a frame holds, if it is read and there is room for just 16; else nothing changes.
#[unsafe(no_mangle)]
pub extern "C" fn router_numbers(n: u8, bytes: &[u8], into: &mut [u64])
    ensures { into.new ≡ numbers_left n bytes.now into.old }
{
    if into.len() != 16 {
        return;
    }
    if let Ok(frame) = frame(n, bytes) {
        into.copy_from_slice(&numbers(frame));
    }
}

// What the roads of one of the words in a frame cost, to each of 64 boxes, if it is read as words and there is room for just that; else nothing changes.
#[unsafe(no_mangle)]
pub extern "C" fn router_costs(n: u8, bytes: &[u8], which: u8, into: &mut [u16])
    ensures { into.new ≡ costs_left n bytes.now which into.old }
{
    if into.len() != 64 || which > 3 {
        return;
    }
    if let Ok(Frame::Words(words)) = frame(n, bytes) {
        into.copy_from_slice(&words.items[usize::from(which)].costs);
    }
}
