// What the bytes on a wire are: the kind, and what follows it.
ghost use Rattle.std.specs.Prelude.{◌≡◌, ℕ, ◌≤◌, ◌∷◌};
ghost use Rattle.frames.specs.Ranges.{FrameAgain, OnlyFrame, bytes_of_frame};
ghost use Rattle.frames.specs.Reading.{a_packet, answer_by, frame_in, frame_of, some_seen, some_words, told_by, value_in};
ghost use Rattle.octets.specs.Writes.{Wrote};
ghost use Rattle.wordframes.specs.Writing.{bytes_of_seens, bytes_of_words};

use crate::hello_bytes::{hello, write_hello};
use crate::values::Frame;
use messages::{Seens, Words};
use octets::{Fault, Reader, put_byte, put_bytes};
use wordframes::{put_seens, put_words, read_seens, read_words};

// What follows the kind of a frame of words, to the end.
// Not inlined: its four words would lie in the call that reads any frame, where a packet would pay for their room too.
#[inline(never)]
fn words_frame<'a>(reader: &mut Reader, n: u8) -> Result<Frame<'a>, Fault>
    requires { n ≤ 64 }
    ensures { value_in (frame_of n 2 reader.old.left.now) ≡ answer_by result }
{
    let words = read_words(reader, n)?;
    Ok(Frame::Words(words))
}

// The frame that these bytes are, and nothing more, where there are `n` boxes.
pub fn read_frame(bytes: &[u8], n: u8) -> Result<Frame, Fault>
    requires { n ≤ 64 }
    ensures reads { frame_in n bytes.now ≡ answer_by result }
    ensures only { OnlyFrame n bytes.now result }
{
    let mut reader = Reader { left: bytes };
    let kind = reader.byte()?;
    match kind {
        1 => {
            let hello = hello(&mut reader, n)?;
            reader.end()?;
            Ok(Frame::Hello(hello))
        }
        2 => words_frame(&mut reader, n),
        3 => {
            let seens = read_seens(&mut reader, n)?;
            Ok(Frame::Seen(seens))
        }
        4 => Ok(Frame::Packet(reader.left)),
        _ => Err(Fault::Form),
    }
}

// A packet's frame, 4 and its bytes, at the front of `out` and how many there are, or nothing where they do not fit.
pub fn write_packet(bytes: &[u8], out: &mut [u8]) -> Option<usize>
    ensures wrote { Wrote (4 ∷ bytes.now) out.old result out.new }
    ensures again { FrameAgain (a_packet bytes.now) result out.new }
{
    if out.len() <= bytes.len() {
        return None;
    }
    let at = put_byte(out, 0, 4);
    Some(put_bytes(out, at, bytes))
}

// A frame of words at the front of `out` and how many bytes it has, or nothing where they do not fit.
pub fn write_words(words: Words, out: &mut [u8]) -> Option<usize>
    ensures wrote { Wrote (bytes_of_words words) out.old result out.new }
    ensures again { FrameAgain (some_words words) result out.new }
{
    put_words(words, out)
}

// A frame of what was seen at the front of `out` and how many bytes it has, or nothing where they do not fit.
pub fn write_seens(seens: Seens, out: &mut [u8]) -> Option<usize>
    ensures wrote { Wrote (bytes_of_seens seens) out.old result out.new }
    ensures again { FrameAgain (some_seen seens) result out.new }
{
    put_seens(seens, out)
}

// Any frame at the front of `out` and how many bytes it has, or nothing where they do not fit.
pub fn write_frame(frame: Frame, out: &mut [u8]) -> Option<usize>
    ensures wrote { Wrote (bytes_of_frame (told_by frame.entry)) out.old result out.new }
    ensures again { FrameAgain (told_by frame.entry) result out.new }
{
    match frame {
        Frame::Hello(hello) => write_hello(hello, out),
        Frame::Words(words) => write_words(words, out),
        Frame::Seen(seens) => write_seens(seens, out),
        Frame::Packet(bytes) => write_packet(bytes, out),
    }
}
