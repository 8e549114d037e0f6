// The packet that a script sends, in its frame.
use checksum::internet::internet_sum;

// An IPv4 packet with a header and no more, from a house of one box to a house of another, with a time to live of 64: a byte before it and four behind it make the frame.
pub(crate) fn packet(from: u8, to: u8) -> [u8; 25] {
    let mut frame = [0u8; 25];
    frame[..21].copy_from_slice(&[
        4, 0x45, 0, 0, 20, 0, 0, 0, 0, 64, 253, 0, 0, 10, from, 0, 2, 10, to, 0, 2,
    ]);
    let sum = internet_sum(&frame[1..21]);
    frame[11..13].copy_from_slice(&sum.to_be_bytes());
    frame
}
