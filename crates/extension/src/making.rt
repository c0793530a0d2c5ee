// How an extension is made: its modulus is tried by the splitting method.
ghost use Rattle.std.specs.Prelude.{◌≡◌, ◌-◌, ◌<◌, length, None, MatchBool, ◌≢◌};
ghost use Rattle.field.specs.Field.{field_of};
ghost use Rattle.field.specs.Quotient.{modulus, quotient_ring, extension_extras};
ghost use Rattle.field.specs.Faults.{quotient_refusal};
ghost use Rattle.split.specs.Splitting.{Splitting, whole, SplitsInto};
ghost use Rattle.extension.specs.Extension.{Extended, ExtensionsJudged, ExtensionsAreFields};

use crate::Extension;
use field::{Field, FieldFault, ONE, Quotient, Ring, ask, write_polynomial};
use poly::MOST_CODES;
use split::{Kind, split};

// The most codes of a modulus: k is at most 16.
const MODULUS_CODES: usize = 17;

// The scratch for the splitting of such a modulus: twice 16 rows of 16 codes.
const SCRATCH_CODES: usize = 512;

// Writes the power of t that has its place at the end of the row, plus the polynomial of m.
fn write_modulus<R: Ring>(ring: &R, m: u32, row: &mut [u16])
    requires made { R.made ring.now }
    requires some { 0 < length row.old }
    ensures { row.new ≡ modulus (R.meaning ring.now) (length row.old - 1) m }
{
    write_polynomial(ring, m, row);
    row[row.len() - 1] = ONE;
}

// Whether the splitting method splits t^k plus the polynomial of m.
fn modulus_splits<F: Field>(base: &F, k: usize, m: u32) -> bool
    requires made { F.made base.now }
    requires range { quotient_refusal (F.meaning base.now) k m ≡ None }
    ensures { MatchBool result ((s : Splitting) × SplitsInto (field_of F.Field base.now) (modulus (F.meaning base.now) k m) s × (s ≢ whole)) (SplitsInto (field_of F.Field base.now) (modulus (F.meaning base.now) k m) whole) }
{
    let mut codes = [0u16; MODULUS_CODES];
    let f = &mut codes[..k + 1];
    write_modulus(base, m, f);
    let mut scratch = [0u16; SCRATCH_CODES];
    let mut first = [0u16; MOST_CODES];
    let mut second = [0u16; MOST_CODES];
    match split(base, f, &mut scratch, &mut first, &mut second) {
        Some((kind, _, _)) => kind != Kind::Whole,
        None => true,
    }
}

impl<F: Field> Extension<F> {
    // The extension of a field of order b by t^k plus the polynomial of m; refused with 3 unless k is 2 to 16, then with 4 unless
    // b^k is at most 65,536, then with 5 unless m is below b^k, then with 6 where t^k plus the polynomial of m is a product of two
    // polynomials of smaller positive degree.
    pub fn new(base: F, k: u32, m: u32) -> Result<Extension<F>, FieldFault>
        requires { F.made base }
        ensures makes { Extended (field_of F.Field base) k m (λ x. ⟦<Extension<F> as Ring>⟧.made x × (⟦<Extension<F> as Ring>⟧.meaning x ≡ quotient_ring (F.meaning base) k m) × (⟦<Extension<F> as Field>⟧.extras x ≡ extension_extras (field_of F.Field base) k m)) result }
        ensures judged { ExtensionsJudged }
        ensures fields { ExtensionsAreFields }
    {
        let _ = Quotient::new(base, k, m)?;
        ask(&base);
        if modulus_splits(&base, k as usize, m) {
            return Err(FieldFault::ModulusSplits);
        }
        Ok(Extension {
            base,
            k: k as u8,
            m,
        })
    }
}
