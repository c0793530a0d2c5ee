// The calls on polynomials that the step makes, none of which can be refused.
ghost use Rattle.std.specs.Prelude.{◌≡◌, ◌≤◌, length};
ghost use Rattle.field.specs.Polynomial.{derivative, product, Canonical, Divides, IsCommonDivisor};
ghost use Rattle.poly.specs.Faults.{most_codes};

use crate::operand::Operand;
use crate::polynomial::Polynomial;
use field::Field;
use poly::MOST_CODES;

impl<F: Field> Operand<'_, F> {
    // The derivative.
    pub(crate) fn derivative(&self) -> Polynomial
        requires { F.made self.now.field.now }
        ensures { result ≡ derivative (F.meaning self.now.field.now) self.now.f.now }
    {
        let mut codes = [0; MOST_CODES];
        let n = poly::derivative(self.field, self.f, &mut codes).unwrap();
        Polynomial::new(codes, n)
    }

    // The greatest common divisor with g.
    pub(crate) fn common_divisor(&self, g: &[u16]) -> Polynomial
        requires made { F.made self.now.field.now }
        requires other { Canonical (F.meaning self.now.field.now) g.now }
        requires short { length g.now ≤ most_codes }
        ensures { IsCommonDivisor (F.meaning self.now.field.now) self.now.f.now g.now result }
    {
        let mut codes = [0; MOST_CODES];
        let n = poly::gcd(self.field, self.f, g, &mut codes).unwrap();
        Polynomial::new(codes, n)
    }

    // The quotient by the divisor g.
    pub(crate) fn cofactor(&self, g: &[u16]) -> Polynomial
        requires made { F.made self.now.field.now }
        requires other { Canonical (F.meaning self.now.field.now) g.now }
        requires divides { Divides (F.meaning self.now.field.now) g.now self.now.f.now }
        ensures canonical { Canonical (F.meaning self.now.field.now) result }
        ensures multiplies { product (F.meaning self.now.field.now) g.now result ≡ self.now.f.now }
    {
        let mut codes = [0; MOST_CODES];
        let mut rest = [0; MOST_CODES];
        let (n, _) = poly::divide(self.field, self.f, g, &mut codes, &mut rest).unwrap();
        Polynomial::new(codes, n)
    }
}
