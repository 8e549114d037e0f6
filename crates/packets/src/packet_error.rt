// ICMP errors: which packets are such, and the one that a refused packet is answered with.
ghost use Rattle.std.specs.Prelude.{◌≡◌, ◌≤◌, length, slice_index};
ghost use Rattle.octets.specs.Writes.{Wrote};
ghost use Rattle.packets.specs.Errors.{error_header, error_of, error_quoting, is_error, is_error_type};
ghost use Rattle.packets.specs.Travels.{ErrorGood};

use crate::sums::put_sums;
use crate::values::Trouble;
use octets::put_bytes;

fn is_error_type(kind: u8) -> bool
    ensures { result ≡ is_error_type kind }
{
    matches!(kind, 3 | 4 | 5 | 11 | 12)
}

// Whether it is an ICMP error, of which no error is sent.
pub fn is_error(packet: &[u8]) -> bool
    ensures { result ≡ is_error packet.now }
{
    packet.len() > 20 && packet[9] == 1 && is_error_type(packet[20])
}

// The byte at a place, and 0 past the end.
pub fn byte_at(bytes: &[u8], i: usize) -> u8
    ensures { result ≡ slice_index bytes.now i }
{
    bytes.get(i).copied().unwrap_or(0)
}

// The header of an error that quotes these bytes, with no sum yet.
fn error_header(me: u8, quoted: &[u8]) -> [u8; 20]
    requires { length quoted.now ≤ 28 }
    ensures { result ≡ error_header me quoted.now }
{
    let length = 28 + quoted.len() as u8;
    let [a, b, c, d] = [
        byte_at(quoted, 12),
        byte_at(quoted, 13),
        byte_at(quoted, 14),
        byte_at(quoted, 15),
    ];
    [
        0x45, 0, 0, length, 0, 0, 0, 0, 64, 1, 0, 0, 10, me, 0, 1, a, b, c, d,
    ]
}

// Writes an error that quotes these bytes.
fn put_error(me: u8, trouble: Trouble, quoted: &[u8], out: &mut [u8]) -> Option<usize>
    requires { length quoted.now ≤ 28 }
    ensures { Wrote (error_quoting me trouble quoted.now) out.old result out.new }
{
    let length = 28 + quoted.len();
    if out.len() < length {
        return None;
    }
    let at = put_bytes(out, 0, &error_header(me, quoted));
    let at = put_bytes(out, at, &[u8::from(trouble), 0, 0, 0, 0, 0, 0, 0]);
    put_bytes(out, at, quoted);
    put_sums(&mut out[0..length]);
    Some(length)
}

// The error for a packet, from box `me`, at the front of `out` and how many bytes it has, or nothing where it does not fit.
pub fn write_error(me: u8, trouble: Trouble, packet: &[u8], out: &mut [u8]) -> Option<usize>
    ensures wrote { Wrote (error_of me trouble packet.now) out.old result out.new }
    ensures good { ErrorGood me packet.now (error_of me trouble packet.now) }
{
    let quoted = packet.len().min(28);
    put_error(me, trouble, &packet[..quoted], out)
}
