// The bytes of a hello: 1, the box, the drawn number and the number heard, 8 bytes each.
ghost use Rattle.std.specs.Prelude.{◌≡◌};
ghost use Rattle.octets.specs.Writes.{Wrote};
ghost use Rattle.octets.specs.Reads.{with_left};
ghost use Rattle.frames.specs.Ranges.{FrameAgain};
ghost use Rattle.frames.specs.Reading.{a_hello, hello_in};
ghost use Rattle.frames.specs.Writing.{bytes_of_hello};

use messages::Hello;
use octets::{Fault, Reader, put_byte, put_number};

// What follows the kind.
pub fn hello(reader: &mut Reader, n: u8) -> Result<Hello, Fault>
    ensures { hello_in n reader.old.left.now ≡ with_left result reader.new.left.now }
{
    let from = reader.below(n)?;
    let drawn = reader.positive(8)?;
    let heard = reader.number(8)?;
    Ok(Hello { from, drawn, heard })
}

// The hello's bytes at the front of `out` and how many there are, or nothing where they do not fit.
pub fn write_hello(hello: Hello, out: &mut [u8]) -> Option<usize>
    ensures wrote { Wrote (bytes_of_hello hello) out.old result out.new }
    ensures again { FrameAgain (a_hello hello) result out.new }
{
    if out.len() < 18 {
        return None;
    }
    let at = put_byte(out, 0, 1);
    let at = put_byte(out, at, hello.from);
    let at = put_number(out, at, 8, hello.drawn);
    let at = put_number(out, at, 8, hello.heard);
    Some(at)
}
