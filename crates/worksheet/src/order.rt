// Marks, the codes of a part, and the order of parts.
ghost use Rattle.std.specs.Prelude.{◌≡◌, ◌<◌, ◌≤◌, length};
ghost use Rattle.field.specs.Polynomial.{degree};
ghost use Rattle.poly.specs.Faults.{most_codes};
ghost use Rattle.worksheet.specs.Sheet.{before, new_part, is_open};
ghost use Rattle.worksheet.specs.Meaning.{part_of, Sized};

use crate::parts::{Mark, Part};
use poly::MOST_CODES;

impl Mark {
    // Whether the part may still split.
    pub fn is_open(self) -> bool
        ensures { result ≡ is_open self }
    {
        matches!(self, Mark::Open)
    }
}

impl Part {
    // An open part with these codes.
    pub(crate) fn open(row: &[u16], times: u32) -> Part
        requires some { 0 < length row.now }
        requires short { length row.now ≤ most_codes }
        ensures value { part_of result ≡ new_part row.now times }
        ensures sized { Sized result }
    {
        let mut codes = [0u16; MOST_CODES];
        codes[..row.len()].copy_from_slice(row);
        Part {
            codes,
            len: row.len(),
            times,
            mark: Mark::Open,
        }
    }

    // The codes of the part, the constant first.
    pub fn codes(&self) -> &[u16]
        ensures value { result.now ≡ (part_of self.now).codes }
        ensures short { length result.now ≤ most_codes }
    {
        &self.codes[..self.len.min(MOST_CODES)]
    }

    // The degree of the part.
    pub(crate) fn degree(&self) -> usize
        ensures { result ≡ degree (part_of self.now).codes }
    {
        self.codes().len().saturating_sub(1)
    }

    // The multiplicity of the part.
    pub fn times(&self) -> u32
        ensures { result ≡ (part_of self.now).times }
    {
        self.times
    }

    // Whether the part may still split.
    pub fn mark(&self) -> Mark
        ensures { result ≡ (part_of self.now).mark }
    {
        self.mark
    }
}

// Whether the codes a stand before b: by length, then by the codes from the highest down.
// By hand, as it is asked of each part at each placing: by `cmp` of the lengths and then of the codes an enter among 127 parts took
// 1.7 times as long.
pub(crate) fn stands_before(a: &[u16], b: &[u16]) -> bool
    ensures { result ≡ before a.now b.now }
{
    if a.len() != b.len() {
        return a.len() < b.len();
    }
    for i in (0..a.len()).rev() {
        if a[i] != b[i] {
            return a[i] < b[i];
        }
    }
    false
}
