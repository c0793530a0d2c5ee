// A polynomial by value: its codes in an array, with their count beside.
ghost use Rattle.std.specs.Prelude.{◌≡◌, ℕ, ◌<◌, ◌≤◌, List, length, take, MatchBool, ◌≢◌};
ghost use Rattle.field.specs.Polynomial.{degree, zero_polynomial};
ghost use Rattle.poly.specs.Faults.{most_codes};
ghost use Rattle.poly.specs.Calls.{written};

use poly::MOST_CODES;
use std::marker::Model;

// A polynomial of one to 128 codes, in an array, as a step asks for no memory. A contract sees the list of them.
#[derive(Drop)]
pub(crate) struct Polynomial {
    codes: [u16; MOST_CODES],
    length: usize,
}

impl Model for Polynomial {
    ghost Value = { List ℕ };

    ghost view = { λ p. take p.length p.codes };

    ghost invariant = { λ p. (0 < p.length) × (p.length ≤ most_codes) };
}

impl Polynomial {
    // The first n codes.
    pub(crate) fn new(codes: [u16; MOST_CODES], n: usize) -> Self
        requires some { 0 < n }
        requires short { n ≤ most_codes }
        ensures { result ≡ take n codes }
    {
        Polynomial { codes, length: n }
    }

    // The polynomial with these codes.
    pub(crate) fn from_slice(f: &[u16]) -> Self
        requires some { 0 < length f.now }
        requires short { length f.now ≤ most_codes }
        ensures { result ≡ f.now }
    {
        let mut codes = [0; MOST_CODES];
        codes[..f.len()].copy_from_slice(f);
        Polynomial::new(codes, f.len())
    }

    // The zero polynomial.
    pub(crate) fn zero() -> Self
        ensures { result ≡ zero_polynomial }
    {
        Polynomial::new([0; MOST_CODES], 1)
    }

    // The codes.
    pub(crate) fn as_slice(&self) -> &[u16]
        ensures value { result.now ≡ self.now }
        ensures short { length self.now ≤ most_codes }
    {
        &self.codes[..self.length]
    }

    // The degree.
    pub(crate) fn degree(&self) -> usize
        ensures { result ≡ degree self.now }
    {
        self.length - 1
    }

    // Whether it is the zero polynomial.
    pub(crate) fn is_zero(&self) -> bool
        ensures { MatchBool result (self.now ≡ zero_polynomial) (self.now ≢ zero_polynomial) }
    {
        matches!(self.as_slice(), [0])
    }

    // Writes the codes into the front of a buffer.
    pub(crate) fn write(&self, out: &mut [u16; MOST_CODES])
        ensures { out.new ≡ written self.now out.old }
    {
        out[..self.length].copy_from_slice(self.as_slice());
    }
}
