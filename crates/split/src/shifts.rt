// The smallest shift: the first code w for which f and Q - w have a common divisor of positive degree, Q being the least fixed
// polynomial.
ghost use Rattle.std.specs.Prelude.{◌≡◌, ℕ, ◌<◌, ◌≤◌, List, length, MatchBool, ◌≢◌};
ghost use Rattle.field.specs.Ring.{one};
ghost use Rattle.field.specs.Polynomial.{degree, constant, value, Canonical};
ghost use Rattle.split.specs.Splitting.{LeastFixed, ShiftDivisor, SmallestShift};
ghost use Rattle.split.specs.Sieve.{IsSieve};

use crate::operand::Operand;
use crate::polynomial::Polynomial;
use field::{Field, Ring};
use poly::MOST_CODES;

// Whether a polynomial is zero at a code.
fn is_zero_at<R: Ring>(ring: &R, sieve: &Polynomial, w: u16) -> bool
    requires made { R.made ring.now }
    requires canonical { Canonical (R.meaning ring.now) sieve.now }
    requires code { w < (R.meaning ring.now).order }
    ensures { MatchBool result (value (R.meaning ring.now) sieve.now w ≡ 0) (value (R.meaning ring.now) sieve.now w ≢ 0) }
{
    poly::value(ring, sieve.as_slice(), w).unwrap() == 0
}

impl<F: Field> Operand<'_, F> {
    // The greatest common divisor of f and Q - w.
    pub(crate) fn shift_divisor(&self, fixed: &[u16], w: u16) -> Polynomial
        requires made { F.made self.now.field.now }
        requires least { LeastFixed (F.meaning self.now.field.now) self.now.f.now fixed.now }
        ensures { ShiftDivisor (F.meaning self.now.field.now) self.now.f.now fixed.now w result }
    {
        let mut codes = [0; MOST_CODES];
        let shifted = &mut codes[..fixed.len()];
        shifted.copy_from_slice(fixed);
        shifted[0] = self.field.sum(fixed[0], self.field.opposite(w));
        self.common_divisor(shifted)
    }

    // Whether f and Q - w have a common divisor of positive degree.
    fn shares(&self, fixed: &[u16], w: u16) -> bool
        requires made { F.made self.now.field.now }
        requires least { LeastFixed (F.meaning self.now.field.now) self.now.f.now fixed.now }
        ensures { MatchBool result ((h : List ℕ) × ShiftDivisor (F.meaning self.now.field.now) self.now.f.now fixed.now w h × (0 < degree h)) (ShiftDivisor (F.meaning self.now.field.now) self.now.f.now fixed.now w (constant (one (F.meaning self.now.field.now)))) }
    {
        self.shift_divisor(fixed, w).degree() > 0
    }

    // The smallest shift. Only the zeros of the sieve are worth a try.
    pub(crate) fn smallest_shift(&self, fixed: &[u16], sieve: &Polynomial) -> u16
        requires made { F.made self.now.field.now }
        requires least { LeastFixed (F.meaning self.now.field.now) self.now.f.now fixed.now }
        requires sieve { IsSieve (F.meaning self.now.field.now) self.now.f.now fixed.now sieve.now }
        ensures { (h : List ℕ) × SmallestShift (F.meaning self.now.field.now) self.now.f.now fixed.now result h }
    {
        // a loop that is left with the shift: that there is one is proved, so no range has to bound it
        let mut w = 0;
        loop {
            if is_zero_at(self.field, sieve, w) && self.shares(fixed, w) {
                break w;
            }
            w += 1;
        }
    }
}
