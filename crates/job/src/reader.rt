// The reading of a job's bytes, each count, kind and length judged as soon as it is read, each record when all its bytes are there.
ghost use Rattle.std.specs.Prelude.{◌≡◌, ◌+◌, ◌*◌, ◌<◌, ◌≤◌, length, take, drop, IfOk, IfErr, OnOk, Ok, Err};
ghost use Rattle.job.specs.Reading.{byte as byte_at, words as words_at, given as given_to, judged as judged_at, end, ended, at_end};

use crate::JobFault;
use poly::MOST_CODES;

// the kind of a level that is a prime field
const PRIME_KIND: u8 = 1;

// the kind of a level that is the symbol field
const SYMBOL_KIND: u8 = 2;

// the kind of a level that is an extension
const EXTENSION_KIND: u8 = 3;

// how many bytes follow this kind: k in one and m in two
const EXTENSION_BYTES: usize = 3;

// a code is a number in two bytes
const CODE_BYTES: usize = 2;

// The first level of a field: the prime field of an order, or the symbol field.
#[derive(Clone, Copy)]
pub(crate) enum Base {
    Prime(u8),
    Symbols,
}

// The bytes of a job, and the place of the next to read.
#[derive(Drop)]
pub(crate) struct Reader<'a> {
    bytes: &'a [u8],
    pub(crate) at: usize,
    // the place is not past the end
    ghost within: { at ≤ length bytes.now },
}

impl<'a> Reader<'a> {
    ghost use Rattle.job.specs.Reader.{bytes_of, Moved, base_at, base_bytes, extension_at, polynomial_at};

    // Before the first byte.
    pub(crate) fn new(bytes: &'a [u8]) -> Reader<'a>
        ensures bytes { bytes_of result ≡ bytes.now }
        ensures place { result.at ≡ 0 }
    {
        Reader { bytes, at: 0 }
    }

    // The next n bytes: refused with 40 where there are not so many.
    fn take(&mut self, n: usize) -> Result<&'a [u8], JobFault>
        ensures enough { OnOk result (self.old.at + n ≤ length (bytes_of self.old)) }
        ensures taken { IfOk result (λ s. s.now ≡ take n (drop self.old.at (bytes_of self.old))) }
        ensures few { IfErr result (λ e. (length (bytes_of self.old) < self.old.at + n) × (e ≡ JobFault.EndsEarly (length (bytes_of self.old)))) }
        ensures moved { OnOk result (Moved self.old n self.new) }
    {
        let Some(taken) = self.bytes[self.at..].get(..n) else {
            return Err(JobFault::EndsEarly(self.bytes.len()));
        };
        self.at += n;
        Ok(taken)
    }

    // The next byte.
    #[tactic(auto, using(crate::proofs::ReadingBytes::given_short))]
    fn byte(&mut self) -> Result<u8, JobFault>
        ensures value { result ≡ given_to Err (bytes_of self.old) (self.old.at + 1) (Ok (byte_at (bytes_of self.old) self.old.at)) }
        ensures moved { OnOk result (Moved self.old 1 self.new) }
    {
        Ok(self.take(1)?[0])
    }

    // The next byte, a count, kind or length: refused with 41 unless it is one of low to high.
    #[tactic(auto, using(crate::proofs::ReadingBytes::given_there, crate::proofs::ReadingBytes::given_short))]
    pub(crate) fn judged(&mut self, low: u8, high: u8) -> Result<u8, JobFault>
        ensures value { result ≡ judged_at Err (bytes_of self.old) self.old.at low high (Ok (byte_at (bytes_of self.old) self.old.at)) }
        ensures allowed { IfOk result (λ b. (low ≤ b) × (b ≤ high)) }
        ensures moved { OnOk result (Moved self.old 1 self.new) }
    {
        let at = self.at;
        let b = self.byte()?;
        if !(low..=high).contains(&b) {
            return Err(JobFault::NotAllowed(at));
        }
        Ok(b)
    }

    // The first level: the kind 1 and p, or the kind 2.
    pub(crate) fn base(&mut self) -> Result<Base, JobFault>
        ensures value { result ≡ base_at (bytes_of self.old) self.old.at }
        ensures moved { IfOk result (λ b. Moved self.old (base_bytes b) self.new) }
    {
        // these two bytes only are left by what is judged
        match self.judged(PRIME_KIND, SYMBOL_KIND)? {
            PRIME_KIND => Ok(Base::Prime(self.byte()?)),
            _ => Ok(Base::Symbols),
        }
    }

    // A level above the first: the kind 3, k and m.
    pub(crate) fn extension(&mut self) -> Result<(u8, u16), JobFault>
        ensures value { result ≡ extension_at (bytes_of self.old) self.old.at }
        ensures moved { OnOk result (Moved self.old 4 self.new) }
    {
        let _ = self.judged(EXTENSION_KIND, EXTENSION_KIND)?;
        let bytes = self.take(EXTENSION_BYTES)?;
        Ok((bytes[0], u16::from_le_bytes([bytes[1], bytes[2]])))
    }

    // A polynomial, from index 0 on: its length.
    pub(crate) fn polynomial(&mut self, codes: &mut [u16; MOST_CODES]) -> Result<usize, JobFault>
        ensures value { result ≡ polynomial_at (bytes_of self.old) self.old.at }
        ensures short { IfOk result (λ n. n ≤ MOST_CODES) }
        ensures codes { IfOk result (λ n. take n codes.new ≡ words_at (bytes_of self.old) (self.old.at + 1) n) }
        ensures moved { IfOk result (λ n. Moved self.old (1 + 2 * n) self.new) }
    {
        let n = usize::from(self.judged(1, MOST_CODES as u8)?);
        fill(&mut codes[..n], self.take(CODE_BYTES * n)?);
        Ok(n)
    }

    // After the last polynomial: refused with 42 where bytes are left over.
    #[tactic(auto, using(crate::proofs::ReadingBytes::end_there, crate::proofs::ReadingBytes::end_not))]
    pub(crate) fn finish(self) -> Result<(), JobFault>
        ensures done { OnOk result (at_end (bytes_of self.entry) self.entry.at ≡ end) }
        ensures left { IfErr result (λ e. at_end (bytes_of self.entry) self.entry.at ≡ ended e) }
    {
        if self.at < self.bytes.len() {
            return Err(JobFault::LeftOver(self.at));
        }
        Ok(())
    }
}

// Fills a row with the numbers in the bytes, two for each, the low one first.
fn fill(row: &mut [u16], bytes: &[u8])
    requires { length bytes.now ≡ 2 * length row.old }
    ensures { row.new ≡ words_at bytes.now 0 (length row.old) }
{
    // by an index: a zip would say nothing of what is written
    for (i, code) in row.iter_mut().enumerate() {
        *code = u16::from_le_bytes([bytes[2 * i], bytes[2 * i + 1]]);
    }
}
