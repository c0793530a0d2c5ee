ghost use Rattle.std.specs.Prelude.{◌≡◌, ℕ, suc, ◌+◌, ◌-◌, ◌<◌, ◌≤◌, length, slice_index};
ghost use Rattle.field.specs.Ring.{total, multiple};
ghost use Rattle.field.specs.Polynomial.{coefficient, value, trimmed, or_zero};
ghost use Rattle.field.specs.Rows.{IsRow, Written};
ghost use Rattle.poly.specs.Faults.{most_codes};

use crate::MOST_CODES;
use field::Ring;

// The code at place i, or 0 past the end.
fn code_at(f: &[u16], i: usize) -> u16
    ensures { result ≡ coefficient f.now i }
{
    f.get(i).copied().unwrap_or(0)
}

// Writes the codes of the sum of f and g into a row, as many as it has.
pub(crate) fn add_codes<R: Ring>(ring: &R, f: &[u16], g: &[u16], row: &mut [u16])
    requires { R.made ring.now }
    ensures { IsRow row.new (length row.old) (λ i. (R.meaning ring.now).sum (coefficient f.now i) (coefficient g.now i)) }
{
    for (i, c) in row.iter_mut().enumerate() {
        *c = ring.sum(code_at(f, i), code_at(g, i));
    }
}

// Adds t times g to the codes of a row, from a place on.
pub(crate) fn add_multiple<R: Ring>(ring: &R, t: u16, g: &[u16], place: usize, row: &mut [u16])
    requires made { R.made ring.now }
    requires fits { place + length g.now ≤ length row.old }
    ensures { Written row.old row.new place (length g.now) (λ i. (R.meaning ring.now).sum (slice_index row.old (place + i)) ((R.meaning ring.now).product t (coefficient g.now i))) }
{
    // by index: of a row that a zip writes through, only the length is known
    for (i, c) in g.iter().enumerate() {
        row[place + i] = ring.sum(row[place + i], ring.product(t, *c));
    }
}

// Makes a row of zeros that of the codes of the product of f and g.
pub(crate) fn multiply_codes<R: Ring>(ring: &R, f: &[u16], g: &[u16], row: &mut [u16])
    requires made { R.made ring.now }
    requires some { 0 < length g.now }
    requires zeros { IsRow row.old (length f.now + length g.now - 1) (λ _. 0) }
    ensures { IsRow row.new (length f.now + length g.now - 1) (λ n. total (R.meaning ring.now) (suc n) (λ i. (R.meaning ring.now).product (coefficient f.now i) (coefficient g.now (n - i)))) }
{
    for (i, c) in f.iter().enumerate() {
        add_multiple(ring, *c, g, i, row);
    }
}

// The n-fold sum of a.
fn repeat_sum<R: Ring>(ring: &R, n: usize, a: u16) -> u16
    requires { R.made ring.now }
    ensures { result ≡ multiple (R.meaning ring.now) n a }
{
    let mut sum = 0;
    for _ in 0..n {
        sum = ring.sum(sum, a);
    }
    sum
}

// Writes the codes of the derivative of f into a row, as many as it has.
pub(crate) fn derive_codes<R: Ring>(ring: &R, f: &[u16], row: &mut [u16])
    requires { R.made ring.now }
    ensures { IsRow row.new (length row.old) (λ i. multiple (R.meaning ring.now) (suc i) (coefficient f.now (suc i))) }
{
    for (i, c) in row.iter_mut().enumerate() {
        *c = repeat_sum(ring, i + 1, code_at(f, i + 1));
    }
}

// The value of f at x, by Horner's rule.
pub(crate) fn evaluate<R: Ring>(ring: &R, f: &[u16], x: u16) -> u16
    requires made { R.made ring.now }
    requires codes { (i : ℕ) → coefficient f.now i < (R.meaning ring.now).order }
    requires point { x < (R.meaning ring.now).order }
    ensures { result ≡ value (R.meaning ring.now) f.now x }
{
    let mut sum = 0;
    for c in f.iter().rev() {
        sum = ring.sum(*c, ring.product(x, sum));
    }
    sum
}

// The polynomial of a row: without the zeros at its end, but with one code at least.
pub(crate) fn polynomial_of(row: &[u16]) -> &[u16]
    requires { 0 < length row.now }
    ensures { result.now ≡ or_zero (trimmed row.now) }
{
    let mut codes = row;
    while let [_, .., 0] = codes {
        codes = &codes[..codes.len() - 1];
    }
    codes
}

// A row of f with zeros after it.
pub(crate) fn padded(f: &[u16]) -> [u16; MOST_CODES]
    requires { length f.now ≤ most_codes }
    ensures { IsRow result most_codes (coefficient f.now) }
{
    let mut row = [0; MOST_CODES];
    row[..f.len()].copy_from_slice(f);
    row
}
