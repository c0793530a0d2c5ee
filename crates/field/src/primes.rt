ghost use Rattle.std.specs.Prelude.{◌≡◌, ◌≤◌, None};
ghost use Rattle.field.specs.Residues.{residues, is_prime, primes_below, prime_extras, greatest_modulus};
ghost use Rattle.field.specs.Field.{inverse_in};
ghost use Rattle.field.specs.Faults.{Makes, residues_refusal, prime_refusal, PrimeMade};
ghost use Rattle.std.proofs.Common.{rules};

use crate::{Field, FieldFault, ONE, Residues, Ring};

// The 54 primes from 2 to 251.
const PRIMES: [u16; 54] = [
    2, 3, 5, 7, 11, 13, 17, 19, 23, 29, 31, 37, 41, 43, 47, 53, 59, 61, 67, 71, 73, 79, 83, 89, 97,
    101, 103, 107, 109, 113, 127, 131, 137, 139, 149, 151, 157, 163, 167, 173, 179, 181, 191, 193,
    197, 199, 211, 223, 227, 229, 233, 239, 241, 251,
];

// The list of all primes up to 256.
fn primes() -> &'static [u16; 54]
    ensures { result.now ≡ primes_below 257 }
{
    &PRIMES
}

// Whether a number of at most 256 is prime.
fn in_primes(n: u16) -> bool
    requires { n ≤ greatest_modulus }
    ensures { result ≡ is_prime n }
{
    primes().contains(&n)
}

// The residues modulo a prime from 2 to 251.
#[derive(Clone, Copy)]
pub struct PrimeField {
    base: Residues,
}

impl PrimeField {
    // The residues modulo n as a field; refused with 1 unless n is 2 to 256, then with 2 unless it is prime.
    pub fn new(n: u32) -> Result<PrimeField, FieldFault>
        ensures { Makes (prime_refusal n) (λ x. ⟦<PrimeField as Ring>⟧.made x × (⟦<PrimeField as Ring>⟧.meaning x ≡ residues n) × (⟦<PrimeField as Field>⟧.extras x ≡ prime_extras n)) result }
    {
        let base = Residues::new(n)?;
        if !in_primes(base.n) {
            return Err(FieldFault::NotPrime);
        }
        Ok(PrimeField { base })
    }
}

impl Ring for PrimeField {
    ghost meaning = { λ x. residues x.base.n };

    ghost made = { λ x. PrimeMade x.base.n };

    ghost ring = { Prim.search rules };

    fn order(&self) -> u32 {
        self.base.order()
    }

    fn sum(&self, a: u16, b: u16) -> u16 {
        self.base.sum(a, b)
    }

    fn opposite(&self, a: u16) -> u16 {
        self.base.opposite(a)
    }

    fn product(&self, a: u16, b: u16) -> u16 {
        self.base.product(a, b)
    }
}

// The first residue modulo p whose product with a is one.
fn inverse_modulo(base: &Residues, a: u16) -> Option<u16>
    requires { residues_refusal base.now.n ≡ None }
    ensures { result ≡ inverse_in (residues base.now.n) a }
{
    (0..base.n).find(|b| base.product(a, *b) == ONE)
}

impl Field for PrimeField {
    ghost extras = { λ x. prime_extras x.base.n };

    fn characteristic(&self) -> u32 {
        u32::from(self.base.n)
    }

    fn exponent(&self) -> u32 {
        1
    }

    fn inverse(&self, a: u16) -> Option<u16> {
        inverse_modulo(&self.base, a)
    }
}
