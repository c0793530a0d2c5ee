// Rows of digits: the digits of a number and the number of a row, and sums and opposites of codes place by place.
ghost use Rattle.std.specs.Prelude.{◌≡◌, ◌^◌, ◌<◌, ◌≤◌, true, length, slice_index};
ghost use Rattle.field.specs.Ring.{greatest_order};
ghost use Rattle.field.specs.Quotient.{digits, from_digits};
ghost use Rattle.field.specs.Rows.{IsRow, each_below};

use crate::Ring;

// Writes the digits of x in base b, the lowest first.
pub(crate) fn write_digits(b: u32, x: u32, row: &mut [u16])
    requires { (0 < b) × (b ≤ greatest_order) }
    ensures { row.new ≡ digits b (length row.old) x }
{
    let mut rest = x;
    for d in row.iter_mut() {
        *d = (rest % b) as u16;
        rest /= b;
    }
}

// Writes the digits of x in the base that a ring's order is, the lowest first: the coefficients of the polynomial of x.
pub fn write_polynomial<R: Ring>(ring: &R, x: u32, row: &mut [u16])
    requires { R.made ring.now }
    ensures { row.new ≡ digits (R.meaning ring.now).order (length row.old) x }
{
    write_digits(ring.order(), x, row);
}

// The number with the digits of a row in base b.
pub(crate) fn number_of(b: u32, row: &[u16]) -> u16
    requires small { b ^ length row.now ≤ greatest_order }
    requires digits { each_below b row.now ≡ true }
    ensures { result ≡ from_digits b row.now }
{
    let mut n = 0;
    for d in row.iter().rev() {
        n = u32::from(*d) + b * n;
    }
    n as u16
}

// Adds a row to another, code by code.
pub(crate) fn add_row<R: Ring>(ring: &R, right: &[u16], row: &mut [u16])
    requires made { R.made ring.now }
    requires right { length right.now ≡ length row.old }
    ensures { IsRow row.new (length row.old) (λ i. (R.meaning ring.now).sum (slice_index row.old i) (slice_index right.now i)) }
{
    // not by zip: nothing is known of a row after a loop over what zip lends of it
    for (i, c) in row.iter_mut().enumerate() {
        *c = ring.sum(*c, right[i]);
    }
}

// Puts the opposite of each code in its place.
pub(crate) fn oppose_row<R: Ring>(ring: &R, row: &mut [u16])
    requires { R.made ring.now }
    ensures { IsRow row.new (length row.old) (λ i. (R.meaning ring.now).opposite (slice_index row.old i)) }
{
    for c in row.iter_mut() {
        *c = ring.opposite(*c);
    }
}

// Multiplies each code of a row by u.
pub fn scale<R: Ring>(ring: &R, u: u16, row: &mut [u16])
    requires { R.made ring.now }
    ensures { IsRow row.new (length row.old) (λ i. (R.meaning ring.now).product u (slice_index row.old i)) }
{
    for c in row.iter_mut() {
        *c = ring.product(u, *c);
    }
}
