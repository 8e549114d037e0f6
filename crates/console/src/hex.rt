// Bytes that stand in a line as pairs of hexadecimal digits.
ghost use Rattle.std.specs.Prelude.{◌≡◌, ◌<◌, ◌≤◌, length};
ghost use Rattle.std.specs.List.{list_all};
ghost use Rattle.console.specs.Hex.{is_digit, value_of, hex_in, number_of};
ghost use Rattle.octets.specs.Writes.{Wrote};

use super::input::Fault;
use octets::put_byte;
use std::marker::Model;

// The bytes that one or more pairs of digits stand for.
#[derive(Drop)]
pub struct Hex<'a> {
    pairs: &'a [[u8; 2]],
}

// A contract sees the bytes.
impl<'a> Model for Hex<'a> {
    ghost use Rattle.std.specs.Prelude.{ℕ, ◌<◌, List, length, map};
    ghost use Rattle.console.specs.Hex.{pair_byte};

    ghost Value = { List ℕ };

    ghost view = { λ hex. map pair_byte hex.pairs.now };

    ghost invariant = { λ hex. 0 < length hex.pairs.now };
}

// What a digit stands for; 0 for a byte that is no digit.
fn value(digit: u8) -> u8
    ensures is { result ≡ value_of digit }
    ensures small { result < 16 }
{
    match digit {
        b'0'..=b'9' => digit - b'0',
        b'a'..=b'f' => digit - b'a' + 10,
        b'A'..=b'F' => digit - b'A' + 10,
        _ => 0,
    }
}

// Whether there is nothing but digits.
pub(crate) fn are_digits(bytes: &[u8]) -> bool
    ensures { result ≡ list_all is_digit bytes.now }
{
    bytes.iter().all(|b| b.is_ascii_hexdigit())
}

// The number that at most 16 digits write, high digit first.
pub(crate) fn number(digits: &[u8]) -> u64
    requires { length digits.now ≤ 16 }
    ensures { result ≡ number_of digits.now }
{
    let mut n: u64 = 0;
    for digit in digits {
        n = n * 16 + u64::from(value(*digit));
    }
    n
}

impl<'a> Hex<'a> {
    // Pairs of digits and nothing else.
    pub(crate) fn read(digits: &'a [u8]) -> Result<Hex<'a>, Fault>
        ensures { result ≡ hex_in digits.now }
    {
        if digits.is_empty() || digits.len() % 2 != 0 || !are_digits(digits) {
            return Err(Fault::Form);
        }
        let (pairs, _) = digits.as_chunks::<2>();
        Ok(Hex { pairs })
    }

    // How many bytes there are, never none.
    pub fn len(&self) -> usize
        ensures is { result ≡ length self.now }
        ensures some { 0 < result }
    {
        self.pairs.len()
    }

    // Writes the bytes to the front of `out`, and gives how many; none where they do not fit.
    pub fn write(&self, out: &mut [u8]) -> Option<usize>
        ensures { Wrote self.now out.old result out.new }
    {
        let pairs = self.pairs;
        if out.len() < pairs.len() {
            return None;
        }
        let mut at = 0;
        for [high, low] in pairs {
            at = put_byte(out, at, value(*high) * 16 + value(*low));
        }
        Some(at)
    }
}
