// Packets: what one is for, and what becomes of it.
ghost use Rattle.exports.specs.Verdicts.{errand_number, left_by, length_by};
ghost use Rattle.packets.specs.Errands.{errand_of};
ghost use Rattle.packets.specs.Errors.{is_error, trouble_of};
ghost use Rattle.packets.specs.Packet.{echoed, handed_on};
ghost use Rattle.std.specs.Prelude.{◌≡◌};

use packets::{Errand, Trouble, errand, write_error};

// What box `me` of `n` does with the packet: 0 to hand it out, 1 to answer its echo, 2 and the box to send it on to, or 256 and the number of the refusal.
#[unsafe(no_mangle)]
pub extern "C" fn router_errand(n: u8, me: u8, packet: &[u8]) -> u16
    ensures { result ≡ errand_number (errand_of n me packet.now) }
{
    match errand(n, me, packet) {
        Ok(Errand::HandOut) => 0,
        Ok(Errand::Echo) => 1,
        Ok(Errand::Onward(to)) => 2 + u16::from(to),
        Err(refusal) => 256 + u16::from(u8::from(refusal)),
    }
}

// The packet as it goes on to the next box.
#[unsafe(no_mangle)]
pub extern "C" fn router_hand_on(packet: &mut [u8])
    ensures { packet.new ≡ handed_on packet.old }
{
    packets::hand_on(packet);
}

// Turns an echo request into its answer.
#[unsafe(no_mangle)]
pub extern "C" fn router_echo_back(packet: &mut [u8])
    ensures { packet.new ≡ echoed packet.old }
{
    packets::echo_back(packet);
}

// Whether it is an ICMP error.
#[unsafe(no_mangle)]
pub extern "C" fn router_is_error(packet: &[u8]) -> bool
    ensures { result ≡ is_error packet.now }
{
    packets::is_error(packet)
}

// Writes the error of this ICMP type, 11 for time exceeded or 3 for unreachable, for a packet: how long it is, or 0 where it does not fit or there is no such type.
#[unsafe(no_mangle)]
pub extern "C" fn router_write_error(me: u8, kind: u8, packet: &[u8], out: &mut [u8]) -> usize
    ensures long { result ≡ length_by (trouble_of kind) me packet.now out.old }
    ensures left { out.new ≡ left_by (trouble_of kind) me packet.now out.old }
{
    let Ok(trouble) = Trouble::try_from(kind) else {
        return 0;
    };
    write_error(me, trouble, packet, out).unwrap_or(0)
}
