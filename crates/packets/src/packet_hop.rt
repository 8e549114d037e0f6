// A packet on its way to another box: one hop less to live.
ghost use Rattle.std.specs.Prelude.{◌≡◌, ◌<◌, length, slice_index};
ghost use Rattle.packets.specs.Packet.{StaysRight, fallen, handed_on};
ghost use Rattle.packets.specs.Travels.{HopGood, StaysWhole};

use checksum::internet::mended;

// The header with a time to live one less and its sum mended.
fn fall(header: &mut [u8])
    requires { (length header.old ≡ 20) × (0 < slice_index header.old 8) }
    ensures is { header.new ≡ fallen header.old }
    ensures right { StaysRight header.old header.new }
{
    let sum = u16::from_be_bytes([header[10], header[11]]);
    let old = u16::from_be_bytes([header[8], header[9]]);
    let sum = mended(sum, old, old - 256).to_be_bytes();
    header[8] -= 1;
    header[10..12].copy_from_slice(&sum);
}

// The packet as it goes on to the next box.
pub fn hand_on(packet: &mut [u8])
    ensures is { packet.new ≡ handed_on packet.old }
    ensures right { StaysRight packet.old packet.new }
    ensures whole { StaysWhole packet.old packet.new }
    ensures goes { HopGood packet.old packet.new }
{
    if packet.len() < 20 || packet[8] == 0 {
        return;
    }
    fall(&mut packet[0..20]);
}
