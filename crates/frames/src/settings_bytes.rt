// The bytes of a box's settings: 6, how many boxes, which this is, and the cost of each of 8 wires, 2 bytes each.
ghost use Rattle.std.specs.Prelude.{◌≡◌, ℕ, ◌+◌, ◌*◌, ◌<◌, ◌≤◌, length};
ghost use Rattle.octets.specs.Reads.{with_left};
ghost use Rattle.octets.specs.Writes.{put, Wrote};
ghost use Rattle.frames.specs.Ranges.{OnlySettings, SettingsAgain};
ghost use Rattle.frames.specs.Reading.{boxes_in, settings_in, value_in, wires_in};
ghost use Rattle.frames.specs.Writing.{bytes_of_settings, bytes_of_wires};

use messages::Settings;
use octets::{Fault, Reader, put_byte, put_number};

// How many boxes there are: 1 to 64.
pub fn boxes(reader: &mut Reader) -> Result<u8, Fault>
    ensures { boxes_in reader.old.left.now ≡ with_left result reader.new.left.now }
{
    match reader.byte()? {
        boxes @ 1..=64 => Ok(boxes),
        _ => Err(Fault::Range),
    }
}

fn wires(reader: &mut Reader) -> Result<[u16; 8], Fault>
    ensures { wires_in reader.old.left.now ≡ with_left result reader.new.left.now }
{
    let mut costs = [0; 8];
    for cost in &mut costs {
        let number = reader.number(2)?;
        *cost = number as u16;
    }
    Ok(costs)
}

// The settings that these bytes are, and nothing more.
pub fn read_settings(bytes: &[u8]) -> Result<Settings, Fault>
    ensures reads { result ≡ value_in (settings_in bytes.now) }
    ensures only { OnlySettings bytes.now result }
{
    let mut reader = Reader { left: bytes };
    let kind = reader.byte()?;
    if kind != 6 {
        return Err(Fault::Form);
    }
    let boxes = boxes(&mut reader)?;
    let me = reader.below(boxes)?;
    let costs = wires(&mut reader)?;
    reader.end()?;
    Ok(Settings { boxes, me, costs })
}

// Writes the costs from the place `at` on, and gives the place after them.
fn put_wires(out: &mut [u8], at: usize, costs: [u16; 8]) -> usize
    requires { at + 16 ≤ length out.old }
    ensures next { result ≡ at + 16 }
    ensures wrote { out.new ≡ put at (bytes_of_wires costs) out.old }
{
    let mut next = at;
    for cost in costs {
        next = put_number(out, next, 2, u64::from(cost));
    }
    next
}

// The settings' bytes at the front of `out` and how many there are, or nothing where they do not fit.
pub fn write_settings(settings: Settings, out: &mut [u8]) -> Option<usize>
    ensures wrote { Wrote (bytes_of_settings settings) out.old result out.new }
    ensures again { SettingsAgain settings result out.new }
{
    if out.len() < 19 {
        return None;
    }
    let at = put_byte(out, 0, 6);
    let at = put_byte(out, at, settings.boxes);
    let at = put_byte(out, at, settings.me);
    Some(put_wires(out, at, settings.costs))
}
