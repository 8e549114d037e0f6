// Checksums: CRC-32C over a frame, and the Internet checksum of RFC 1071 with its mending by RFC 1624.
#![tactic(auto)]

pub mod crc;
pub mod internet;
