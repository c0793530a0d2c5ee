// Rows of remainders modulo a monic polynomial f: a row has as many codes as f has below its leading one.
ghost use Rattle.std.specs.Prelude.{◌≡◌, ℕ, ◌+◌, length};
ghost use Rattle.field.specs.Polynomial.{degree, product};
ghost use Rattle.split.specs.Calls.{Taken};
ghost use Rattle.split.specs.FixedRows.{RowBelow, Residue, PowerRow};

use field::{ONE, Ring, multiply_modulo};
use poly::MOST_CODES;
use std::mem;

// A ring and the polynomial f over it.
#[derive(Drop)]
pub(crate) struct Modulo<'a, R: Ring> {
    pub(crate) ring: &'a R,
    pub(crate) f: &'a [u16],
    ghost taken: { Taken (R.meaning ring.now) f.now },
}

impl<R: Ring> Modulo<'_, R> {
    // Multiplies a row by X.
    fn times_x(&self, row: &mut [u16])
        requires made { R.made self.now.ring.now }
        requires sized { length row.old ≡ degree self.now.f.now }
        ensures { (n : ℕ) → PowerRow (R.meaning self.now.ring.now) self.now.f.now n row.old → PowerRow (R.meaning self.now.ring.now) self.now.f.now (n + 1) row.new }
    {
        let top = row[row.len() - 1];
        let mut below = 0;
        // not by zip: nothing is known of a row after a loop over what zip lends of it
        for (i, c) in row.iter_mut().enumerate() {
            let multiple = self.ring.product(top, self.f[i]);
            let lowered = self.ring.sum(below, self.ring.opposite(multiple));
            below = mem::replace(c, lowered);
        }
    }

    // Writes the product of two rows.
    fn write_product(&self, left: &[u16], right: &[u16], out: &mut [u16])
        requires made { R.made self.now.ring.now }
        requires left { RowBelow (R.meaning self.now.ring.now) self.now.f.now left.now }
        requires right { RowBelow (R.meaning self.now.ring.now) self.now.f.now right.now }
        requires room { length out.old ≡ degree self.now.f.now }
        ensures { Residue (R.meaning self.now.ring.now) self.now.f.now (product (R.meaning self.now.ring.now) left.now right.now) out.new }
    {
        let lower = &self.f[0..self.f.len() - 1];
        multiply_modulo(self.ring, lower, left, right, out).unwrap();
    }

    // Squares a row.
    fn square(&self, row: &mut [u16])
        requires made { R.made self.now.ring.now }
        requires row { RowBelow (R.meaning self.now.ring.now) self.now.f.now row.old }
        ensures { Residue (R.meaning self.now.ring.now) self.now.f.now (product (R.meaning self.now.ring.now) row.old row.old) row.new }
    {
        let mut codes = [0u16; MOST_CODES];
        let out = &mut codes[0..row.len()];
        self.write_product(row, row, out);
        row.copy_from_slice(out);
    }

    // Multiplies a row by another.
    pub(crate) fn multiply(&self, factor: &[u16], row: &mut [u16])
        requires made { R.made self.now.ring.now }
        requires factor { RowBelow (R.meaning self.now.ring.now) self.now.f.now factor.now }
        requires row { RowBelow (R.meaning self.now.ring.now) self.now.f.now row.old }
        ensures { Residue (R.meaning self.now.ring.now) self.now.f.now (product (R.meaning self.now.ring.now) row.old factor.now) row.new }
    {
        let mut codes = [0u16; MOST_CODES];
        let out = &mut codes[0..row.len()];
        self.write_product(row, factor, out);
        row.copy_from_slice(out);
    }

    // Writes X^n, by squaring.
    pub(crate) fn write_power(&self, n: u32, row: &mut [u16])
        requires made { R.made self.now.ring.now }
        requires sized { length row.old ≡ degree self.now.f.now }
        ensures { PowerRow (R.meaning self.now.ring.now) self.now.f.now n row.new }
    {
        if n == 0 {
            row.fill(0);
            row[0] = ONE;
        } else {
            self.write_power(n / 2, row);
            self.square(row);
            if n % 2 == 1 {
                self.times_x(row);
            }
        }
    }

    // Multiplies a row by X^q, where x is X^q: where q is small, by X time and again.
    pub(crate) fn advance(&self, q: usize, x: &[u16], row: &mut [u16])
        requires made { R.made self.now.ring.now }
        requires power { PowerRow (R.meaning self.now.ring.now) self.now.f.now q x.now }
        requires row { RowBelow (R.meaning self.now.ring.now) self.now.f.now row.old }
        ensures { (n : ℕ) → PowerRow (R.meaning self.now.ring.now) self.now.f.now n row.old → PowerRow (R.meaning self.now.ring.now) self.now.f.now (n + q) row.new }
    {
        if q <= row.len() {
            for _ in 0..q {
                self.times_x(row);
            }
        } else {
            self.multiply(x, row);
        }
    }
}
