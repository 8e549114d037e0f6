// The Internet checksum: the complement of the one's complement sum of 16-bit words.
ghost use Rattle.std.specs.Prelude.{◌≡◌, ◌+◌, ◌/◌, ◌%◌, ◌^◌, ◌<◌, ◌≤◌, length, Decides};
ghost use Rattle.checksum.specs.Internet.{ones_add, ones_sum, internet_sum, total, Leaves, header_fits, mended_sum, MendFits, MendAnew, MendOnes, TtlFalls};

// What is over 16 bits, put in at the low end.
fn fold(sum: u32) -> u32
    ensures { result ≡ sum % 65536 + sum / 65536 }
{
    (sum & 0xffff) + (sum >> 16)
}

// Two words in one's complement.
fn ones_add(a: u16, b: u16) -> u16
    ensures { result ≡ ones_add a b }
{
    fold(u32::from(a) + u32::from(b)) as u16
}

// A plain sum of words brought down to one word.
fn folded(sum: u32) -> u16
    ensures { Leaves sum result }
{
    fold(fold(sum)) as u16
}

// The bytes taken as words, high byte first, and added up plainly; an odd last byte stands before a 0. A piece is short enough that the sum fits.
fn plain_sum(piece: &[u8]) -> u32
    requires { length piece.now ≤ 65536 }
    ensures value { result ≡ total piece.now }
    ensures small { result < 2 ^ 31 + 2 ^ 16 }
{
    let mut sum: u32 = 0;
    let (words, odd) = piece.as_chunks::<2>();
    for word in words {
        sum += u32::from(u16::from_be_bytes(*word));
    }
    if let Some(high) = odd.first() {
        sum += u32::from(*high) * 256;
    }
    sum
}

// The sum of the bytes in one's complement, piece by piece.
fn ones_sum(bytes: &[u8]) -> u16
    ensures { result ≡ ones_sum bytes.now }
{
    let mut sum: u32 = 0;
    for piece in bytes.chunks(65536) {
        sum = fold(sum + plain_sum(piece));
    }
    folded(sum)
}

// The checksum of the bytes. A header is summed with 0 in its checksum field.
pub fn internet_sum(bytes: &[u8]) -> u16
    ensures { result ≡ internet_sum bytes.now }
{
    0xffff - ones_sum(bytes)
}

// Whether the checksum field of a header, or of an ICMP message, is right.
pub fn header_fits(header: &[u8]) -> bool
    ensures { Decides result (header_fits header.now) }
{
    ones_sum(header) == 0xffff
}

// The checksum `sum`, mended after a word `old` became `new`. It is 0xffff only where both `sum` and `old` are that and `new` is 0.
pub fn mended(sum: u16, old: u16, new: u16) -> u16
    ensures value { result ≡ mended_sum sum old new }
    ensures fits { MendFits sum old new result }
    ensures anew { MendAnew sum old new result }
    ensures ttl { TtlFalls sum old new result }
    ensures ones { MendOnes sum old new result }
{
    0xffff - ones_add(ones_add(0xffff - sum, 0xffff - old), new)
}
