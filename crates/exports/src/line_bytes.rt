// A journal line: read, and what was read written again.
ghost use Rattle.exports.specs.Verdicts.{again, line_answer, line_at};
ghost use Rattle.frames.specs.Ranges.{OnlyLine};
ghost use Rattle.frames.specs.Reading.{and_after};
ghost use Rattle.frames.specs.Writing.{bytes_of_line};
ghost use Rattle.std.specs.Prelude.{◌≡◌, length, take, nat_lt, IfOk};

use frames::{Fault, Line, read_line, write_line};

// The journal line at the front of these bytes, and how long it is. More than 64 boxes are out of range.
fn line(n: u8, bytes: &[u8]) -> Result<(Line, usize), Fault>
    ensures reads { line_at n bytes.now ≡ and_after result bytes.now }
    ensures only { OnlyLine n bytes.now result }
    ensures long { IfOk result (λ t. t.1 ≡ length (bytes_of_line t.0)) }
{
    if n > 64 {
        return Err(Fault::Range);
    }
    read_line(bytes, n)
}

// Reads the journal line at the front and writes it again: how long it is, or 256 and the number of the fault.
#[unsafe(no_mangle)]
pub extern "C" fn router_line(n: u8, bytes: &[u8], out: &mut [u8]) -> usize
    ensures answer { result ≡ line_answer n bytes.now }
    ensures wrote { out.new ≡ again (nat_lt result 256) (take result bytes.now) out.old }
{
    match line(n, bytes) {
        Ok((line, length)) => {
            write_line(line, out);
            length
        }
        Err(fault) => 256 + usize::from(u8::from(fault)),
    }
}
