// What a box has to do with a packet.
ghost use Rattle.std.specs.Prelude.{◌≡◌, ◌≤◌, length};
ghost use Rattle.packets.specs.Errands.{errand_of};
ghost use Rattle.packets.specs.Packet.{asks_echo, is_address, is_echo, is_for_box, is_whole};

use crate::sums::sum_fits;
use crate::values::{Errand, Refusal};

// A header without options, as long as it says, with a right sum.
fn is_whole(packet: &[u8]) -> bool
    ensures { result ≡ is_whole packet.now }
{
    packet.len() >= 20
        && packet[0] == 0x45
        && usize::from(u16::from_be_bytes([packet[2], packet[3]])) == packet.len()
        && sum_fits(&packet[0..20])
}

// 10 and a box below `n`.
fn is_address(n: u8, first: u8, second: u8) -> bool
    ensures { result ≡ is_address n first second }
{
    first == 10 && second < n
}

// For 10.me.0.1, the box itself.
fn is_for_box(me: u8, packet: &[u8]) -> bool
    requires { 28 ≤ length packet.now }
    ensures { result ≡ is_for_box me packet.now }
{
    packet[16] == 10 && packet[17] == me && packet[18] == 0 && packet[19] == 1
}

// An ICMP echo request with a right sum.
fn asks_echo(packet: &[u8]) -> bool
    requires { 28 ≤ length packet.now }
    ensures { result ≡ asks_echo packet.now }
{
    packet[9] == 1 && packet[20] == 8 && packet[21] == 0 && sum_fits(&packet[20..])
}

// An echo request for the box itself, in one piece.
fn is_echo(me: u8, packet: &[u8]) -> bool
    ensures { result ≡ is_echo me packet.now }
{
    packet.len() >= 28
        && is_for_box(me, packet)
        && packet[6] % 64 == 0
        && packet[7] == 0
        && asks_echo(packet)
}

// What box `me` of `n` does with the packet, or why it is refused.
// Kept: each caller has the two numbers apart, from `Links` or over the C interface. `hello`, `router`, `station` and `ways` take such a pair too, but share no crate with this one where a struct of it could stand.
pub fn errand(n: u8, me: u8, packet: &[u8]) -> Result<Errand, Refusal>
    ensures { result ≡ errand_of n me packet.now }
{
    if !is_whole(packet) {
        return Err(Refusal::Malformed);
    }
    let to = packet[17];
    if !is_address(n, packet[12], packet[13]) || !is_address(n, packet[16], to) {
        return Err(Refusal::Address);
    }
    if to == me {
        return Ok(if is_echo(me, packet) {
            Errand::Echo
        } else {
            Errand::HandOut
        });
    }
    if packet[8] < 2 {
        return Err(Refusal::Expired);
    }
    Ok(Errand::Onward(to))
}
