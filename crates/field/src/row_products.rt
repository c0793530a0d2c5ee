// The product of two rows of codes modulo a monic polynomial.
ghost use Rattle.std.specs.Prelude.{◌≡◌, ◌<◌, true, false, length, OnOk, OnErr};
ghost use Rattle.field.specs.Polynomial.{product};
ghost use Rattle.field.specs.Quotient.{reduced_by};
ghost use Rattle.field.specs.Rows.{IsRow, each_below, rows_suit, MultipliesModulo, stepped};

use crate::Ring;

// Four rows have no product: their lengths are 0 or differ, or a code is none of the ring.
#[derive(Clone, Copy, PartialEq, Eq, Debug)]
pub struct RowFault;

// Moves the row up by one place, reduces it by the monic polynomial with the lower codes `lower`, and adds a times `right`.
fn step_row<R: Ring>(ring: &R, lower: &[u16], a: u16, right: &[u16], row: &mut [u16])
    requires made { R.made ring.now }
    requires some { 0 < length row.old }
    requires modulus { length lower.now ≡ length row.old }
    requires factor { length right.now ≡ length row.old }
    ensures { IsRow row.new (length row.old) (stepped (R.meaning ring.now) lower.now a right.now row.old) }
{
    let top = row[row.len() - 1];
    let mut below = 0;
    // not by zip: nothing is known of a row after a loop over what zip lends of it
    for (i, c) in row.iter_mut().enumerate() {
        let taken = ring.opposite(ring.product(top, lower[i]));
        let lowered = ring.sum(below, taken);
        let added = ring.product(a, right[i]);
        below = *c;
        *c = ring.sum(lowered, added);
    }
}

// The product of rows that suit, from the highest code of the left one down.
pub(crate) fn multiply_rows<R: Ring>(
    ring: &R,
    lower: &[u16],
    left: &[u16],
    right: &[u16],
    row: &mut [u16],
)
    requires made { R.made ring.now }
    requires suits { rows_suit (R.meaning ring.now) lower.now left.now right.now row.old ≡ true }
    ensures { row.new ≡ reduced_by (R.meaning ring.now) lower.now (product (R.meaning ring.now) left.now right.now) }
{
    row.fill(0);
    for code in left.iter().rev() {
        if *code == 0 && row[row.len() - 1] == 0 {
            // nothing is taken off and nothing added: the row only moves up
            row.rotate_right(1);
        } else {
            step_row(ring, lower, *code, right, row);
        }
    }
}

// Whether each code of a row is below b.
fn all_below(b: u32, row: &[u16]) -> bool
    ensures { result ≡ each_below b row.now }
{
    row.iter().all(|x| u32::from(*x) < b)
}

// Refuses four rows unless they have the same positive length, and the first three have codes only.
fn check_rows<R: Ring>(
    ring: &R,
    lower: &[u16],
    left: &[u16],
    right: &[u16],
    row: &[u16],
) -> Result<(), RowFault>
    requires { R.made ring.now }
    ensures ok { OnOk result (rows_suit (R.meaning ring.now) lower.now left.now right.now row.now ≡ true) }
    ensures err { OnErr result (rows_suit (R.meaning ring.now) lower.now left.now right.now row.now ≡ false) }
{
    let d = row.len();
    if d == 0 || lower.len() != d || left.len() != d || right.len() != d {
        return Err(RowFault);
    }
    let order = ring.order();
    if all_below(order, lower) && all_below(order, left) && all_below(order, right) {
        Ok(())
    } else {
        Err(RowFault)
    }
}

// The product of two rows of d codes modulo the monic polynomial of degree d whose lower codes are `lower`, into a row of d codes.
// It refuses, and leaves the row, where the four are not rows of the same positive length, or one of `lower`, `left` and `right` is
// no row of codes.
pub fn multiply_modulo<R: Ring>(
    ring: &R,
    lower: &[u16],
    left: &[u16],
    right: &[u16],
    row: &mut [u16],
) -> Result<(), RowFault>
    requires { R.made ring.now }
    ensures { MultipliesModulo (R.meaning ring.now) lower.now left.now right.now row.old result row.new }
{
    check_rows(ring, lower, left, right, row)?;
    multiply_rows(ring, lower, left, right, row);
    Ok(())
}
