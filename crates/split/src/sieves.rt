// A polynomial whose zeros tell which shifts are worth a try. One that has f as a divisor when the least fixed polynomial Q is put
// into it does: it is f itself where Q is X, and else a relation among the powers of Q modulo f.
ghost use Rattle.std.specs.Prelude.{◌≡◌, ℕ, suc, ◌+◌, ◌-◌, ◌*◌, ◌<◌, ◌≤◌, List, length, take, slice_index};
ghost use Rattle.field.specs.Polynomial.{coefficient, degree, Canonical};
ghost use Rattle.field.specs.Rows.{IsRow};
ghost use Rattle.split.specs.Matrix.{Codes, combined};
ghost use Rattle.split.specs.FixedRows.{RowBelow, Residue, PowerRow};
ghost use Rattle.split.specs.Splitting.{LeastFixed};
ghost use Rattle.split.specs.Sieve.{PowerRows, IsSieve, relation_at};

use crate::elimination::dependent_row;
use crate::fixing::put_row;
use crate::operand::Operand;
use crate::polynomial::Polynomial;
use crate::remainders::Modulo;
use field::{Field, Ring};
use poly::MOST_CODES;

// Writes the powers of what is given by the row `fixed`, modulo f, into the matrix, and their constants apart. The row begins as one.
fn fill_powers<R: Ring>(
    modulo: &Modulo<R>,
    fixed: &[u16],
    row: &mut [u16],
    constants: &mut [u16],
    codes: &mut [u16],
)
    requires made { R.made modulo.now.ring.now }
    requires fixed { RowBelow (R.meaning modulo.now.ring.now) modulo.now.f.now fixed.now }
    requires start { PowerRow (R.meaning modulo.now.ring.now) modulo.now.f.now 0 row.old }
    requires constants { length constants.old ≡ degree modulo.now.f.now }
    requires space { degree modulo.now.f.now * degree modulo.now.f.now ≤ length codes.old }
    ensures constants { (i : ℕ) → coefficient constants.new i < (R.meaning modulo.now.ring.now).order }
    ensures below { Codes (R.meaning modulo.now.ring.now) (degree modulo.now.f.now * degree modulo.now.f.now) codes.new }
    ensures rows { (q : List ℕ) → Canonical (R.meaning modulo.now.ring.now) q → Residue (R.meaning modulo.now.ring.now) modulo.now.f.now q fixed.now → PowerRows (R.meaning modulo.now.ring.now) modulo.now.f.now q (degree modulo.now.f.now) codes.new constants.new }
    ensures past { (k : ℕ) → degree modulo.now.f.now * degree modulo.now.f.now ≤ k → slice_index codes.new k ≡ slice_index codes.old k }
{
    for (j, constant) in constants.iter_mut().enumerate() {
        *constant = row[0];
        put_row(j, row, 0, 0, codes);
        modulo.multiply(fixed, row);
    }
}

// The combination of the constants from the second on, with the coefficients from the second on.
fn combine_constants<R: Ring>(ring: &R, combination: &[u16], constants: &[u16]) -> u16
    requires made { R.made ring.now }
    requires some { 0 < length combination.now }
    requires room { length combination.now ≤ length constants.now }
    ensures { result ≡ combined (R.meaning ring.now) (length combination.now - 1) (coefficient combination.now) (coefficient constants.now) }
{
    let mut sum = 0;
    for (c, v) in combination[1..].iter().zip(&constants[1..]) {
        sum = ring.sum(sum, ring.product(*c, *v));
    }
    sum
}

impl<F: Field> Operand<'_, F> {
    // The relation that row d + e of the scratch tells, d being the degree of f.
    fn relation(&self, e: usize, constants: &[u16], codes: &[u16]) -> Polynomial
        requires made { F.made self.now.field.now }
        requires row { e < degree self.now.f.now }
        requires space { 2 * (degree self.now.f.now * degree self.now.f.now) ≤ length codes.now }
        requires constants { length constants.now ≡ degree self.now.f.now }
        ensures { IsRow result (suc e) (relation_at (F.meaning self.now.field.now) codes.now (degree self.now.f.now) e constants.now) }
    {
        let d = self.f.len() - 1;
        let place = (d + e) * d;
        let combination = &codes[place..place + e + 1];
        let mut out = [0; MOST_CODES];
        out[..e + 1].copy_from_slice(combination);
        let total = combine_constants(self.field, combination, constants);
        out[0] = self.field.opposite(total);
        Polynomial::new(out, e + 1)
    }

    // A sieve from the powers of what is given by the row `fixed`, modulo f. It works in the scratch. Where no row is dependent it is
    // zero, which drops no shift.
    fn sieve_of_powers(&self, fixed: &[u16], codes: &mut [u16]) -> Polynomial
        requires made { F.made self.now.field.now }
        requires fixed { RowBelow (F.meaning self.now.field.now) self.now.f.now fixed.now }
        requires space { 2 * (degree self.now.f.now * degree self.now.f.now) ≤ length codes.old }
        ensures sieve { (q : List ℕ) → Canonical (F.meaning self.now.field.now) q → Residue (F.meaning self.now.field.now) self.now.f.now q fixed.now → IsSieve (F.meaning self.now.field.now) self.now.f.now q result }
        ensures past { (k : ℕ) → 2 * (degree self.now.f.now * degree self.now.f.now) ≤ k → slice_index codes.new k ≡ slice_index codes.old k }
    {
        let modulo = Modulo {
            ring: self.field,
            f: self.f,
        };
        let d = self.f.len() - 1;
        let mut start = [0u16; MOST_CODES];
        let row = &mut start[0..d];
        modulo.write_power(0, row);
        let mut firsts = [0u16; MOST_CODES];
        let constants = &mut firsts[0..d];
        fill_powers(&modulo, fixed, row, constants, codes);
        match dependent_row(self.field, d, codes) {
            Some(e) => self.relation(e, constants, codes),
            None => Polynomial::zero(),
        }
    }

    // A sieve for the least fixed polynomial, which is of degree e and given by the row `fixed`. It works in the scratch. Where the
    // field is small there is little to drop.
    pub(crate) fn sieve(&self, e: usize, fixed: &[u16], codes: &mut [u16]) -> Polynomial
        requires made { F.made self.now.field.now }
        requires degree { e < degree self.now.f.now }
        requires least { LeastFixed (F.meaning self.now.field.now) self.now.f.now (take (e + 1) fixed.now) }
        requires residue { Residue (F.meaning self.now.field.now) self.now.f.now (take (e + 1) fixed.now) fixed.now }
        requires space { 2 * (degree self.now.f.now * degree self.now.f.now) ≤ length codes.old }
        ensures sieve { IsSieve (F.meaning self.now.field.now) self.now.f.now (take (e + 1) fixed.now) result }
        ensures past { (k : ℕ) → 2 * (degree self.now.f.now * degree self.now.f.now) ≤ k → slice_index codes.new k ≡ slice_index codes.old k }
    {
        if e == 1 {
            Polynomial::from_slice(self.f)
        } else if self.field.order() as usize <= fixed.len() {
            Polynomial::zero()
        } else {
            self.sieve_of_powers(fixed, codes)
        }
    }
}
