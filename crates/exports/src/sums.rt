// The sum behind a frame.
ghost use Rattle.checksum.specs.Crc.{SumFits, crc_of};
ghost use Rattle.std.specs.Prelude.{◌≡◌, Decides};

// CRC-32C of the bytes.
#[unsafe(no_mangle)]
pub extern "C" fn router_crc(bytes: &[u8]) -> u32
    ensures { result ≡ crc_of bytes.now }
{
    checksum::crc::crc(bytes)
}

// Whether the last four bytes are the sum of those before.
#[unsafe(no_mangle)]
pub extern "C" fn router_sum_fits(frame: &[u8]) -> bool
    ensures { Decides result (SumFits frame.now) }
{
    checksum::crc::sum_fits(frame)
}
