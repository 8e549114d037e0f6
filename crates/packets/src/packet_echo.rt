// The answer to an echo request.
ghost use Rattle.std.specs.Prelude.{◌≡◌, ◌++◌, length, take, drop};
ghost use Rattle.packets.specs.Packet.{echoed};
ghost use Rattle.packets.specs.Travels.{EchoGood};

use crate::sums::put_sums;

// The two addresses, of four bytes each, change places.
fn swap_addresses(addresses: &mut [u8])
    requires { length addresses.old ≡ 8 }
    ensures { addresses.new ≡ drop 4 addresses.old ++ take 4 addresses.old }
{
    let (source, destination) = addresses.split_at_mut(4);
    source.swap_with_slice(destination);
}

// Turns an echo request into its answer, where it stands.
pub fn echo_back(packet: &mut [u8])
    ensures is { packet.new ≡ echoed packet.old }
    ensures good { EchoGood packet.old packet.new }
{
    if packet.len() < 28 {
        return;
    }
    packet[8] = 64;
    swap_addresses(&mut packet[12..20]);
    packet[20] = 0;
    put_sums(packet);
}
