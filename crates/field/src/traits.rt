ghost use Rattle.std.specs.Prelude.{◌≡◌, ℕ};
ghost use Rattle.field.specs.Ring.{RingMeaning, RingLaws};
ghost use Rattle.field.specs.Field.{FieldExtras, Characteristic, Exponent, Inverses};

// A ring by its order and its operations on codes. A number that is no code gets the answer 0.
pub trait Ring: Copy {
    ghost meaning: { Self → RingMeaning };

    // the property of being well made, on which every answer rests
    ghost made: { Self → Type 0 };

    fn order(&self) -> u32
        requires { made self.now }
        ensures { result ≡ (meaning self.now).order };

    fn sum(&self, a: u16, b: u16) -> u16
        requires { made self.now }
        ensures { result ≡ (meaning self.now).sum a b };

    fn opposite(&self, a: u16) -> u16
        requires { made self.now }
        ensures { result ≡ (meaning self.now).opposite a };

    fn product(&self, a: u16, b: u16) -> u16
        requires { made self.now }
        ensures { result ≡ (meaning self.now).product a b };

    ghost ring: { (x : Self) → made x → RingLaws (meaning x) };
}

// A field is a ring that also tells its characteristic, its exponent and inverses. What each question promises beside its answer
// is a law over all codes at once.
pub trait Field: Ring {
    ghost extras: { Self → FieldExtras };

    // the smallest positive count of ones whose sum is zero
    fn characteristic(&self) -> u32
        requires { Self.made self.now }
        ensures value { result ≡ (extras self.now).characteristic }
        ensures laws { Characteristic (Self.meaning self.now) result };

    // the power of the characteristic that the order is
    fn exponent(&self) -> u32
        requires { Self.made self.now }
        ensures value { result ≡ (extras self.now).exponent }
        ensures laws { Exponent (Self.meaning self.now) (extras self.now).characteristic result };

    // the code whose product with a is one; none for 0 and for what is no code
    fn inverse(&self, a: u16) -> Option<u16>
        requires { Self.made self.now }
        ensures value { result ≡ (extras self.now).inverse a }
        ensures laws { Inverses (Self.meaning self.now) (extras self.now).inverse };
}
