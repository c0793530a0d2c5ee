// The kinds of splitting, each with what it writes and answers.
ghost use Rattle.std.specs.Prelude.{◌≡◌, ℕ, ◌+◌, ◌*◌, ◌<◌, ◌≤◌, List, length, take, slice_index};
ghost use Rattle.field.specs.Field.{field_of};
ghost use Rattle.field.specs.Polynomial.{degree, zero_polynomial, derivative, Canonical, Divides};
ghost use Rattle.split.specs.Splitting.{LeastFixed, SmallestShift, Simple};
ghost use Rattle.split.specs.Kinds.{numbered};
ghost use Rattle.split.specs.Calls.{Split, Paired};
ghost use Rattle.split.specs.FixedRows.{Residue};
ghost use Rattle.split.specs.Sieve.{IsSieve};

use crate::Kind;
use crate::elimination::dependent_row;
use crate::fixing::fill_matrix;
use crate::operand::Operand;
use crate::polynomial::Polynomial;
use crate::roots::root_codes;
use field::{Field, Ring};
use poly::MOST_CODES;

impl<F: Field> Operand<'_, F> {
    // Kind 1: writes the root of f.
    fn take_root(&self, out: &mut [u16; MOST_CODES]) -> (Kind, usize, usize)
        requires made { F.made self.now.field.now }
        requires kind { derivative (F.meaning self.now.field.now) self.now.f.now ≡ zero_polynomial }
        ensures { (other : List ℕ) → Split (field_of F.Field self.now.field.now) self.now.f.now out.old other (numbered result) out.new other }
    {
        let p = self.field.characteristic();
        let degree = (self.f.len() - 1) / p as usize;
        root_codes(
            self.field,
            p as usize,
            self.field.order() / p,
            degree + 1,
            self.f,
            out,
        );
        (Kind::Root, degree, 0)
    }

    // Writes the divisor g of f, and what f is when divided by it. It answers their degrees.
    fn write_pair(
        &self,
        g: &Polynomial,
        first: &mut [u16; MOST_CODES],
        second: &mut [u16; MOST_CODES],
    ) -> (usize, usize)
        requires made { F.made self.now.field.now }
        requires divisor { Canonical (F.meaning self.now.field.now) g.now }
        requires divides { Divides (F.meaning self.now.field.now) g.now self.now.f.now }
        ensures { Paired (F.meaning self.now.field.now) self.now.f.now g.now first.old second.old result first.new second.new }
    {
        let h = self.cofactor(g.as_slice());
        g.write(first);
        h.write(second);
        (g.degree(), h.degree())
    }

    // Kind 3: splits f by the smallest shift of its least fixed polynomial.
    fn take_shift(
        &self,
        fixed: &[u16],
        sieve: &Polynomial,
        first: &mut [u16; MOST_CODES],
        second: &mut [u16; MOST_CODES],
    ) -> (usize, usize)
        requires made { F.made self.now.field.now }
        requires least { LeastFixed (F.meaning self.now.field.now) self.now.f.now fixed.now }
        requires sieve { IsSieve (F.meaning self.now.field.now) self.now.f.now fixed.now sieve.now }
        ensures { (g : List ℕ) × (w : ℕ) × SmallestShift (F.meaning self.now.field.now) self.now.f.now fixed.now w g × Paired (F.meaning self.now.field.now) self.now.f.now g first.old second.old result first.new second.new }
    {
        let w = self.smallest_shift(fixed, sieve);
        let divisor = self.shift_divisor(fixed, w);
        self.write_pair(&divisor, first, second)
    }

    // The same, where the least fixed polynomial is of degree e and given by the row `fixed`. It works in the scratch.
    fn split_by_shift(
        &self,
        e: usize,
        fixed: &[u16],
        codes: &mut [u16],
        first: &mut [u16; MOST_CODES],
        second: &mut [u16; MOST_CODES],
    ) -> (usize, usize)
        requires made { F.made self.now.field.now }
        requires degree { e < degree self.now.f.now }
        requires least { LeastFixed (F.meaning self.now.field.now) self.now.f.now (take (e + 1) fixed.now) }
        requires residue { Residue (F.meaning self.now.field.now) self.now.f.now (take (e + 1) fixed.now) fixed.now }
        requires space { 2 * (degree self.now.f.now * degree self.now.f.now) ≤ length codes.old }
        ensures split { (g : List ℕ) × (w : ℕ) × SmallestShift (F.meaning self.now.field.now) self.now.f.now (take (e + 1) fixed.now) w g × Paired (F.meaning self.now.field.now) self.now.f.now g first.old second.old result first.new second.new }
        ensures past { (k : ℕ) → 2 * (degree self.now.f.now * degree self.now.f.now) ≤ k → slice_index codes.new k ≡ slice_index codes.old k }
    {
        let sieve = self.sieve(e, fixed, codes);
        self.take_shift(&fixed[..e + 1], &sieve, first, second)
    }

    // Kinds 3 and 4, for an f that has no repeated factor.
    fn split_simple(
        &self,
        codes: &mut [u16],
        first: &mut [u16; MOST_CODES],
        second: &mut [u16; MOST_CODES],
    ) -> (Kind, usize, usize)
        requires made { F.made self.now.field.now }
        requires simple { Simple (F.meaning self.now.field.now) self.now.f.now }
        requires space { 2 * (degree self.now.f.now * degree self.now.f.now) ≤ length codes.old }
        ensures split { Split (field_of F.Field self.now.field.now) self.now.f.now first.old second.old (numbered result) first.new second.new }
        ensures past { (k : ℕ) → 2 * (degree self.now.f.now * degree self.now.f.now) ≤ k → slice_index codes.new k ≡ slice_index codes.old k }
    {
        let d = self.f.len() - 1;
        fill_matrix(self.field, self.f, codes);
        match dependent_row(self.field, d, codes) {
            None => (Kind::Whole, d, 0),
            Some(e) => {
                let place = (d + e) * d;
                let mut least = [0; MOST_CODES];
                let fixed = &mut least[..d];
                fixed.copy_from_slice(&codes[place..place + d]);
                let (a, b) = self.split_by_shift(e, fixed, codes, first, second);
                (Kind::Shifted, a, b)
            }
        }
    }

    // The splitting of f by the first kind that fits.
    pub(crate) fn split(
        &self,
        codes: &mut [u16],
        first: &mut [u16; MOST_CODES],
        second: &mut [u16; MOST_CODES],
    ) -> (Kind, usize, usize)
        requires made { F.made self.now.field.now }
        requires space { 2 * (degree self.now.f.now * degree self.now.f.now) ≤ length codes.old }
        ensures split { Split (field_of F.Field self.now.field.now) self.now.f.now first.old second.old (numbered result) first.new second.new }
        ensures past { (k : ℕ) → 2 * (degree self.now.f.now * degree self.now.f.now) ≤ k → slice_index codes.new k ≡ slice_index codes.old k }
    {
        let derived = self.derivative();
        if derived.is_zero() {
            return self.take_root(first);
        }
        let divisor = self.common_divisor(derived.as_slice());
        if divisor.degree() > 0 {
            let (a, b) = self.write_pair(&divisor, first, second);
            return (Kind::Repeated, a, b);
        }
        self.split_simple(codes, first, second)
    }
}
