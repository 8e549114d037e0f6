// Numbers of several bytes, high byte first: read from the front of a slice, and written into a lent one.
//
// It knows nothing of what the numbers mean. It promises which number was read and what is left, and which bytes were written and that no other changed.
#![tactic(auto)]

ghost use Rattle.std.specs.Prelude.{◌≡◌, ℕ, ◌+◌, ◌^◌, ◌<◌, ◌≤◌, [], ◌∷◌, length, IfOk};
ghost use Rattle.octets.specs.Writes.{Bytes, octets, put};
ghost use Rattle.octets.specs.Reads.{with_left, below, byte, end, number, positive};
ghost use Rattle.octets.specs.Faults.{fault_number};

// Why bytes are refused.
#[derive(Clone, Copy, Debug, PartialEq, Eq)]
pub enum Fault {
    Form,
    Range,
    Count,
}

// The number that a fault goes by: 1 for a bad form, 2 for a value out of range, 11 for a count that is too large.
impl From<Fault> for u8 {
    ghost from_gives = { λ fault n. n ≡ fault_number fault };

    fn from(fault: Fault) -> u8 {
        match fault {
            Fault::Form => 1,
            Fault::Range => 2,
            Fault::Count => 11,
        }
    }
}

// What is left to read.
#[derive(Drop)]
pub struct Reader<'a> {
    pub left: &'a [u8],
}

impl<'a> Reader<'a> {
    // The next byte; and all that was left are bytes.
    pub fn byte(&mut self) -> Result<u8, Fault>
        ensures reads { byte self.old.left.now ≡ with_left result self.new.left.now }
        ensures fits { Bytes self.old.left.now }
    {
        let &[first, ref rest @ ..] = self.left else {
            return Err(Fault::Form);
        };
        self.left = rest;
        Ok(first)
    }

    // A number of `width` bytes, high byte first.
    pub fn number(&mut self, width: usize) -> Result<u64, Fault>
        requires { width ≤ 8 }
        ensures reads { number width self.old.left.now ≡ with_left result self.new.left.now }
        ensures fits { IfOk result (λ x. x < 256 ^ width) }
    {
        let mut x: u64 = 0;
        for _ in 0..width {
            let low = self.byte()?;
            x = x * 256 + u64::from(low);
        }
        Ok(x)
    }

    // The next byte, which has to be below `limit`.
    pub fn below(&mut self, limit: u8) -> Result<u8, Fault>
        ensures reads { below limit self.old.left.now ≡ with_left result self.new.left.now }
        ensures fits { IfOk result (λ x. x < limit) }
    {
        let b = self.byte()?;
        if b >= limit {
            return Err(Fault::Range);
        }
        Ok(b)
    }

    // A number of `width` bytes that has to be other than 0.
    pub fn positive(&mut self, width: usize) -> Result<u64, Fault>
        requires { width ≤ 8 }
        ensures reads { positive width self.old.left.now ≡ with_left result self.new.left.now }
        ensures fits { IfOk result (λ x. (0 < x) × (x < 256 ^ width)) }
    {
        let x = self.number(width)?;
        if x == 0 {
            return Err(Fault::Range);
        }
        Ok(x)
    }

    // Nothing is left.
    pub fn end(&mut self) -> Result<(), Fault>
        ensures { end self.old.left.now ≡ with_left result self.new.left.now }
    {
        if !self.left.is_empty() {
            return Err(Fault::Form);
        }
        Ok(())
    }
}

// Kept: the three functions below take `out` and `at` apart. A struct of both would hold a `&mut [u8]`, and each of them would have to promise as well that it still lends the same bytes.

// Writes `x` as `width` bytes from the place `at` on, high byte first, and gives the place after them.
pub fn put_number(out: &mut [u8], at: usize, width: usize, x: u64) -> usize
    requires { at + width ≤ length out.old }
    ensures next { result ≡ at + width }
    ensures wrote { out.new ≡ put at (octets width x) out.old }
{
    let mut high = x;
    // Kept: tried over `out[at..at + width].iter_mut().rev()`; the proof didn't close, since nothing is known of what is written through an adapter of `iter_mut`.
    for i in (0..width).rev() {
        out[at + i] = (high % 256) as u8;
        high /= 256;
    }
    at + width
}

// Writes one byte at the place `at`, and gives the place after it.
pub fn put_byte(out: &mut [u8], at: usize, b: u8) -> usize
    requires { at < length out.old }
    ensures next { result ≡ at + 1 }
    ensures wrote { out.new ≡ put at (b ∷ []) out.old }
{
    out[at] = b;
    at + 1
}

// Writes the bytes from the place `at` on, and gives the place after them.
#[tactic(auto, using(crate::proofs::Puts::put_cloned))]
pub fn put_bytes(out: &mut [u8], at: usize, bytes: &[u8]) -> usize
    requires { at + length bytes.now ≤ length out.old }
    ensures next { result ≡ at + length bytes.now }
    ensures wrote { out.new ≡ put at bytes.now out.old }
{
    let next = at + bytes.len();
    out[at..next].clone_from_slice(bytes).unwrap();
    next
}
