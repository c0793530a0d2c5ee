// The quotient of a ring by t^k plus the polynomial of m: a code is the number whose digits are the coefficients of a remainder.
ghost use Rattle.std.specs.Prelude.{◌≡◌, true, Some, None, length, OnOk, IfErr};
ghost use Rattle.field.specs.Quotient.{quotient_ring, digits, from_digits};
ghost use Rattle.field.specs.Faults.{Makes, quotient_refusal, QuotientMade, Reduction};
ghost use Rattle.field.specs.Rows.{each_below};
ghost use Rattle.field.specs.Ranges.{quotient_made};

use crate::row_digits::{add_row, number_of, oppose_row, write_digits};
use crate::row_products::multiply_rows;
use crate::{FieldFault, Ring};

// The greatest order of a ring.
const GREATEST_ORDER: u32 = 65536;

// The greatest count of digits of a code.
const MOST_DIGITS: usize = 16;

// The quotient of a ring of order b by t^k plus the polynomial of m, for k from 2 to 16 and m below b^k.
#[derive(Clone, Copy)]
pub struct Quotient<R> {
    base: R,
    k: u8,
    m: u32,
}

// Refuses a quotient of a ring by t^k plus the polynomial of m, where there is none.
fn check_quotient<R: Ring>(base: &R, k: u32, m: u32) -> Result<(), FieldFault>
    requires { R.made base.now }
    ensures ok { OnOk result (quotient_refusal (R.meaning base.now) k m ≡ None) }
    ensures err { IfErr result (λ e. quotient_refusal (R.meaning base.now) k m ≡ Some e) }
{
    if k < 2 || k > 16 {
        return Err(FieldFault::Height);
    }
    let order = base.order().saturating_pow(k);
    if order > GREATEST_ORDER {
        return Err(FieldFault::Order);
    }
    if m >= order {
        return Err(FieldFault::Number);
    }
    Ok(())
}

impl<R: Ring> Quotient<R> {
    // The quotient of a ring of order b by t^k plus the polynomial of m; refused with 3 unless k is 2 to 16, then with 4 unless
    // b^k is at most 65,536, then with 5 unless m is below b^k. The product of its codes is told in polynomials too.
    pub fn new(base: R, k: u32, m: u32) -> Result<Quotient<R>, FieldFault>
        requires { R.made base }
        ensures makes { Makes (quotient_refusal (R.meaning base) k m) (λ x. ⟦<Quotient<R> as Ring>⟧.made x × (⟦<Quotient<R> as Ring>⟧.meaning x ≡ quotient_ring (R.meaning base) k m)) result }
        ensures reduces { Reduction }
    {
        check_quotient(&base, k, m)?;
        Ok(Quotient {
            base,
            k: k as u8,
            m,
        })
    }

    // The quotient with parts that suit, which are not checked again.
    pub fn of_parts(base: R, k: u8, m: u32) -> Quotient<R>
        requires { QuotientMade (R.made base) (R.meaning base) k m }
        ensures { ⟦<Quotient<R> as Ring>⟧.made result × (⟦<Quotient<R> as Ring>⟧.meaning result ≡ quotient_ring (R.meaning base) k m) }
    {
        Quotient { base, k, m }
    }

    // Writes the k digits of a number, and lends their row.
    fn digits<'a>(&self, x: u32, room: &'a mut [u16; MOST_DIGITS]) -> &'a mut [u16]
        requires { QuotientMade (R.made self.now.base) (R.meaning self.now.base) self.now.k self.now.m }
        ensures value { result.now ≡ digits (R.meaning self.now.base).order self.now.k x }
        ensures sized { length result.now ≡ self.now.k }
    {
        let row = &mut room[..usize::from(self.k)];
        write_digits(self.base.order(), x, row);
        row
    }

    // The code with k digits.
    fn code(&self, row: &[u16]) -> u16
        requires made { QuotientMade (R.made self.now.base) (R.meaning self.now.base) self.now.k self.now.m }
        requires sized { length row.now ≡ self.now.k }
        requires digits { each_below (R.meaning self.now.base).order row.now ≡ true }
        ensures { result ≡ from_digits (R.meaning self.now.base).order row.now }
    {
        number_of(self.base.order(), row)
    }
}

impl<R: Ring> Ring for Quotient<R> {
    ghost meaning = { λ x. quotient_ring (R.meaning x.base) x.k x.m };

    ghost made = { λ x. QuotientMade (R.made x.base) (R.meaning x.base) x.k x.m };

    ghost ring = { λ x m. quotient_made _ (R.ring x.base m.base) x.k x.m m.in_range };

    fn order(&self) -> u32 {
        self.base.order().pow(u32::from(self.k))
    }

    // digit by digit
    fn sum(&self, a: u16, b: u16) -> u16 {
        let q = self.order();
        let (a, b) = (u32::from(a), u32::from(b));
        if a >= q || b >= q {
            return 0;
        }
        let mut left = [0; MOST_DIGITS];
        let mut right = [0; MOST_DIGITS];
        let row = self.digits(a, &mut left);
        add_row(&self.base, self.digits(b, &mut right), row);
        self.code(row)
    }

    // digit by digit
    fn opposite(&self, a: u16) -> u16 {
        let a = u32::from(a);
        if a >= self.order() {
            return 0;
        }
        let mut codes = [0; MOST_DIGITS];
        let row = self.digits(a, &mut codes);
        oppose_row(&self.base, row);
        self.code(row)
    }

    // that of the rows of digits, reduced
    fn product(&self, a: u16, b: u16) -> u16 {
        let q = self.order();
        let (a, b) = (u32::from(a), u32::from(b));
        if a >= q || b >= q {
            return 0;
        }
        let mut modulus = [0; MOST_DIGITS];
        let mut left = [0; MOST_DIGITS];
        let mut right = [0; MOST_DIGITS];
        let mut result = [0; MOST_DIGITS];
        let lower = self.digits(self.m, &mut modulus);
        let one = self.digits(a, &mut left);
        let other = self.digits(b, &mut right);
        let row = &mut result[..usize::from(self.k)];
        multiply_rows(&self.base, lower, one, other, row);
        self.code(row)
    }
}
