// A frame: read, and what was read written again.
ghost use Rattle.exports.specs.Verdicts.{again, frame_at, frame_verdict};
ghost use Rattle.frames.specs.Ranges.{OnlyFrame};
ghost use Rattle.frames.specs.Reading.{answer_by};
ghost use Rattle.std.specs.Prelude.{◌≡◌, ◌==◌};

use frames::{Fault, Frame, read_frame, write_frame};

// The frame that these bytes are. More than 64 boxes are out of range.
pub(crate) fn frame(n: u8, bytes: &[u8]) -> Result<Frame<'_>, Fault>
    ensures reads { answer_by result ≡ frame_at n bytes.now }
    ensures only { OnlyFrame n bytes.now result }
{
    if n > 64 {
        return Err(Fault::Range);
    }
    read_frame(bytes, n)
}

// Reads a frame and writes it again: 0, or the number of the fault. More than 64 boxes are out of range.
// Kept: the test of the number, which `frame` has too. Through `frame` a frame is moved once more, and four words take a tenth of the time again.
#[unsafe(no_mangle)]
pub extern "C" fn router_frame(n: u8, bytes: &[u8], out: &mut [u8]) -> u8
    ensures verdict { result ≡ frame_verdict n bytes.now }
    ensures wrote { out.new ≡ again (result == 0) bytes.now out.old }
{
    if n > 64 {
        return u8::from(Fault::Range);
    }
    match read_frame(bytes, n) {
        Ok(frame) => {
            write_frame(frame, out);
            0
        }
        Err(fault) => u8::from(fault),
    }
}
