ghost use Rattle.std.specs.Prelude.{◌≡◌, ◌≢◌, ℕ, ◌<◌, ◌≤◌, length, IfSome, IfNone};
ghost use Rattle.field.specs.Ring.{one};
ghost use Rattle.field.specs.Polynomial.{coefficient, leading, zero_polynomial, trimmed, or_zero, Canonical, IsDivision, IsCommonDivisor};
ghost use Rattle.field.specs.Rows.{IsRow};
ghost use Rattle.poly.specs.Faults.{most_codes};

use crate::MOST_CODES;
use crate::rows::{add_multiple, padded, polynomial_of};
use field::{Field, Ring, scale};

// A polynomial to divide by, over any ring, with an inverse of its last code: for a monic one that is one.
#[derive(Drop)]
pub(crate) struct Divisor<'a, R: Ring> {
    ring: &'a R,
    codes: &'a [u16],
    inverse: u16,
    ghost canonical: { Canonical (R.meaning ring.now) codes.now },
    ghost inverts: { (R.meaning ring.now).product (leading codes.now) inverse ≡ one (R.meaning ring.now) },
}

impl<'a, F: Field> Divisor<'a, F> {
    // A polynomial over a field as a divisor: none for the zero polynomial.
    pub(crate) fn new(field: &'a F, codes: &'a [u16]) -> Option<Self>
        requires made { F.made field.now }
        requires canonical { Canonical (F.meaning field.now) codes.now }
        ensures some { IfSome result (λ d. (d.ring.now ≡ field.now) × (d.codes.now ≡ codes.now) × (codes.now ≢ zero_polynomial)) }
        ensures none { IfNone result (codes.now ≡ zero_polynomial) }
    {
        let inverse = field.inverse(codes[codes.len() - 1])?;
        Some(Divisor {
            ring: field,
            codes,
            inverse,
        })
    }
}

impl<R: Ring> Divisor<'_, R> {
    // Divides the codes of a row: the row becomes that of the remainder, and a row of zeros as long as it becomes that of the quotient.
    pub(crate) fn divide(&self, row: &mut [u16], quotient: &mut [u16])
        requires made { R.made self.now.ring.now }
        requires codes { (i : ℕ) → coefficient row.old i < (R.meaning self.now.ring.now).order }
        requires zeros { IsRow quotient.old (length row.old) (λ _. 0) }
        ensures { IsDivision (R.meaning self.now.ring.now) (or_zero (trimmed row.old)) self.now.codes.now (or_zero (trimmed quotient.new)) (or_zero (trimmed row.new)) }
    {
        let top = self.codes.len() - 1;
        // by index: each turn reads the row at one place and writes it at others
        for i in (top..row.len()).rev() {
            if row[i] != 0 {
                let c = self.ring.product(self.inverse, row[i]);
                quotient[i - top] = c;
                add_multiple(self.ring, self.ring.opposite(c), self.codes, i - top, row);
            }
        }
    }
}

// Makes a row monic, unless it is zeros only: then it has the greatest common divisor of what it was and zero.
fn make_monic<F: Field>(field: &F, row: &mut [u16])
    requires made { F.made field.now }
    requires some { 0 < length row.old }
    requires codes { (i : ℕ) → coefficient row.old i < (F.meaning field.now).order }
    ensures { IsCommonDivisor (F.meaning field.now) (or_zero (trimmed row.old)) zero_polynomial (or_zero (trimmed row.new)) }
{
    if let Some(divisor) = Divisor::new(field, polynomial_of(row)) {
        scale(field, divisor.inverse, row);
    }
}

// The row of the greatest common divisor of f and g, by Euclid's algorithm.
pub(crate) fn common_divisor<F: Field>(field: &F, f: &[u16], g: &[u16]) -> [u16; MOST_CODES]
    requires made { F.made field.now }
    requires first { Canonical (F.meaning field.now) f.now × (length f.now ≤ most_codes) }
    requires second { Canonical (F.meaning field.now) g.now × (length g.now ≤ most_codes) }
    ensures size { length result ≡ most_codes }
    ensures divisor { IsCommonDivisor (F.meaning field.now) f.now g.now (or_zero (trimmed result)) }
{
    let mut dividend = padded(f);
    let mut divisor = padded(g);
    while let Some(d) = Divisor::new(field, polynomial_of(&divisor)) {
        d.divide(&mut dividend, &mut [0; MOST_CODES]);
        std::mem::swap(&mut dividend, &mut divisor);
    }
    make_monic(field, &mut dividend);
    dividend
}
