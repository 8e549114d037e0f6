// The sums of a packet: seen to be right, or put right.
ghost use Rattle.std.specs.Prelude.{◌≡◌, ◌+◌, ◌<◌, ◌≤◌, length};
ghost use Rattle.packets.specs.Sums.{both_summed, sum_fits, summed};

use checksum::internet::{header_fits, internet_sum};

// Whether the sum that stands in these bytes is right.
pub fn sum_fits(bytes: &[u8]) -> bool
    ensures { result ≡ sum_fits bytes.now }
{
    header_fits(bytes)
}

// Puts the sum of the bytes into the two at the place `at`.
fn put_sum(bytes: &mut [u8], at: usize)
    requires { at + 1 < length bytes.old }
    ensures { bytes.new ≡ summed at bytes.old }
{
    bytes[at..at + 2].fill(0);
    let sum = internet_sum(bytes).to_be_bytes();
    bytes[at..at + 2].copy_from_slice(&sum);
}

// Puts the sum of the header and that of the ICMP message after it.
pub fn put_sums(packet: &mut [u8])
    requires { 28 ≤ length packet.old }
    ensures { packet.new ≡ both_summed packet.old }
{
    put_sum(&mut packet[0..20], 10);
    put_sum(&mut packet[20..], 2);
}
