// The quotient of a field by a modulus that does not split, and its answers as a ring and as a field.
ghost use Rattle.std.specs.Prelude.{◌≡◌};
ghost use Rattle.field.specs.Field.{field_of, inverse_in};
ghost use Rattle.field.specs.Quotient.{quotient_ring, extension_extras};
ghost use Rattle.extension.specs.Extension.{ExtensionMade};
ghost use Rattle.field.specs.Ranges.{quotient_made};
ghost use Rattle.extension.specs.Judging.{range_taken};

use field::{Field, Quotient, Ring, power_code};

// The quotient of a field by t^k plus the polynomial of m, which does not split: itself a field. That k and m suit the field below is
// the named property `ExtensionMade`, and no invariant of the type.
#[derive(Clone, Copy)]
pub struct Extension<F> {
    pub(crate) base: F,
    pub(crate) k: u8,
    pub(crate) m: u32,
}

impl<F: Field> Extension<F> {
    // The quotient that it is as a ring, made from the same parts.
    fn quotient(&self) -> Quotient<F>
        requires { ExtensionMade (F.made self.now.base) (field_of F.Field self.now.base) self.now.k self.now.m }
        ensures { ⟦<Quotient<F> as Ring>⟧.made result × (⟦<Quotient<F> as Ring>⟧.meaning result ≡ quotient_ring (F.meaning self.now.base) self.now.k self.now.m) }
    {
        Quotient::of_parts(self.base, self.k, self.m)
    }
}

impl<F: Field> Ring for Extension<F> {
    ghost meaning = { λ x. quotient_ring (F.meaning x.base) x.k x.m };

    ghost made = { λ x. ExtensionMade (F.made x.base) (field_of F.Field x.base) x.k x.m };

    ghost ring = { λ x m. quotient_made _ m.laws.ring x.k x.m (range_taken (field_of F.Field x.base) x.k x.m m.taken) };

    fn order(&self) -> u32 {
        self.quotient().order()
    }

    fn sum(&self, a: u16, b: u16) -> u16 {
        self.quotient().sum(a, b)
    }

    fn opposite(&self, a: u16) -> u16 {
        self.quotient().opposite(a)
    }

    fn product(&self, a: u16, b: u16) -> u16 {
        self.quotient().product(a, b)
    }
}

// The inverse of a code: in a field of q elements the power q - 1 of each but zero is one.
fn inverse_code<F: Field>(x: &Extension<F>, a: u16) -> Option<u16>
    requires { ExtensionMade (F.made x.now.base) (field_of F.Field x.now.base) x.now.k x.now.m }
    ensures { result ≡ inverse_in (quotient_ring (F.meaning x.now.base) x.now.k x.now.m) a }
{
    let ring = x.quotient();
    let q = ring.order();
    if a == 0 || u32::from(a) >= q {
        return None;
    }
    Some(power_code(&ring, a, q - 2))
}

impl<F: Field> Field for Extension<F> {
    ghost extras = { λ x. extension_extras (field_of F.Field x.base) x.k x.m };

    fn characteristic(&self) -> u32 {
        self.base.characteristic()
    }

    fn exponent(&self) -> u32 {
        self.base.exponent() * u32::from(self.k)
    }

    fn inverse(&self, a: u16) -> Option<u16> {
        inverse_code(self, a)
    }
}
