ghost use Rattle.std.specs.Prelude.{◌≡◌, None};
ghost use Rattle.field.specs.Residues.{residues};
ghost use Rattle.field.specs.Faults.{Makes, residues_refusal};
ghost use Rattle.field.specs.Ranges.{residues_made};

use crate::{FieldFault, Ring};

// Residues modulo n, for n from 2 to 256.
#[derive(Clone, Copy)]
pub struct Residues {
    pub(crate) n: u16,
}

impl Residues {
    // The residues modulo n; refused with 1 unless n is 2 to 256.
    pub fn new(n: u32) -> Result<Residues, FieldFault>
        ensures { Makes (residues_refusal n) (λ x. ⟦<Residues as Ring>⟧.made x × (⟦<Residues as Ring>⟧.meaning x ≡ residues n)) result }
    {
        if n < 2 || n > 256 {
            return Err(FieldFault::Modulus);
        }
        Ok(Residues { n: n as u16 })
    }
}

impl Ring for Residues {
    ghost meaning = { λ x. residues x.n };

    ghost made = { λ x. residues_refusal x.n ≡ None };

    ghost ring = { λ x m. residues_made x.n m };

    fn order(&self) -> u32 {
        u32::from(self.n)
    }

    fn sum(&self, a: u16, b: u16) -> u16 {
        if a >= self.n || b >= self.n {
            return 0;
        }
        (a + b) % self.n
    }

    fn opposite(&self, a: u16) -> u16 {
        if a >= self.n {
            return 0;
        }
        (self.n - a) % self.n
    }

    fn product(&self, a: u16, b: u16) -> u16 {
        if a >= self.n || b >= self.n {
            return 0;
        }
        (u32::from(a) * u32::from(b) % self.order()) as u16
    }
}
