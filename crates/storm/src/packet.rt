// The packet that is sent, in its frame, and what must be left of it.
use checksum::internet::internet_sum;

// How long it may live.
const TTL: u8 = 64;

// An IPv4 packet with a header and no more, from a house of one box to a house of another: a byte before it and four behind it make the frame.
pub(crate) fn packet(from: u8, to: u8) -> [u8; 25] {
    header(from, to, TTL)
}

fn header(from: u8, to: u8, ttl: u8) -> [u8; 25] {
    let mut frame = [0u8; 25];
    frame[..21].copy_from_slice(&[
        4, 0x45, 0, 0, 20, 0, 0, 0, 0, ttl, 253, 0, 0, 10, from, 0, 2, 10, to, 0, 2,
    ]);
    let sum = internet_sum(&frame[1..21]);
    frame[11..13].copy_from_slice(&sum.to_be_bytes());
    frame
}

// Whether the packet in a frame is just what this packet must be after so many steps, its sum computed anew.
pub(crate) fn is_left(frame: &[u8; 25], from: u8, to: u8, steps: u8) -> bool {
    frame[1..21] == header(from, to, TTL.saturating_sub(steps))[1..21]
}
