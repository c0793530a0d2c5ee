ghost use Rattle.std.specs.Prelude.{◌≡◌};
ghost use Rattle.poly.specs.Calls.{Sums, Multiplies, Derives, evaluates, Division, Buffers, OneDivision, CommonDivisor, OneCommonDivisor};

use crate::checks::check;
use crate::delivery::{deliver, deliver_both};
use crate::division::{Divisor, common_divisor};
use crate::rows::{add_codes, derive_codes, evaluate, multiply_codes};
use crate::{MOST_CODES, PolyFault};
use field::{Field, Ring};

// The sum of f and g.
pub fn sum<R: Ring>(ring: &R, f: &[u16], g: &[u16], out: &mut [u16]) -> Result<usize, PolyFault>
    requires { R.made ring.now }
    ensures { Sums (R.meaning ring.now) f.now g.now out.old result out.new }
{
    check(ring, f)?;
    check(ring, g)?;
    let mut codes = [0u16; MOST_CODES];
    let row = &mut codes[..f.len().max(g.len())];
    add_codes(ring, f, g, row);
    deliver(row, out)
}

// The product of f and g.
pub fn product<R: Ring>(ring: &R, f: &[u16], g: &[u16], out: &mut [u16]) -> Result<usize, PolyFault>
    requires { R.made ring.now }
    ensures { Multiplies (R.meaning ring.now) f.now g.now out.old result out.new }
{
    check(ring, f)?;
    check(ring, g)?;
    if f.len() + g.len() > MOST_CODES + 1 {
        return Err(PolyFault::LongProduct);
    }
    let mut codes = [0u16; MOST_CODES];
    let row = &mut codes[..f.len() + g.len() - 1];
    multiply_codes(ring, f, g, row);
    deliver(row, out)
}

// The derivative of f.
pub fn derivative<R: Ring>(ring: &R, f: &[u16], out: &mut [u16]) -> Result<usize, PolyFault>
    requires { R.made ring.now }
    ensures { Derives (R.meaning ring.now) f.now out.old result out.new }
{
    check(ring, f)?;
    let mut codes = [0u16; MOST_CODES];
    let row = &mut codes[..(f.len() - 1).max(1)];
    derive_codes(ring, f, row);
    deliver(row, out)
}

// The value of f at x.
pub fn value<R: Ring>(ring: &R, f: &[u16], x: u16) -> Result<u16, PolyFault>
    requires { R.made ring.now }
    ensures { result ≡ evaluates (R.meaning ring.now) f.now x }
{
    check(ring, f)?;
    if u32::from(x) >= ring.order() {
        return Err(PolyFault::NotCode(0));
    }
    Ok(evaluate(ring, f, x))
}

// The quotient and the remainder of f by g, over a field: refused with 13 where g is the zero polynomial.
#[tactic(auto, using(crate::proofs::Once::one_division, crate::proofs::Operands::taken_is_canonical))]
pub fn divide<F: Field>(
    field: &F,
    f: &[u16],
    g: &[u16],
    quotient: &mut [u16],
    remainder: &mut [u16],
) -> Result<(usize, usize), PolyFault>
    requires { F.made field.now }
    ensures result { Division (F.meaning field.now) f.now g.now (record { quotient = quotient.old; remainder = remainder.old }) result (record { quotient = quotient.new; remainder = remainder.new }) }
    ensures once { OneDivision }
{
    check(field, f)?;
    check(field, g)?;
    let divisor = Divisor::new(field, g).ok_or(PolyFault::ZeroDivisor)?;
    let mut rests = [0; MOST_CODES];
    let row = &mut rests[..f.len()];
    row.copy_from_slice(f);
    let mut quotients = [0; MOST_CODES];
    let times = &mut quotients[..f.len()];
    divisor.divide(row, times);
    deliver_both(times, row, quotient, remainder)
}

// The greatest common divisor of f and g, over a field: monic, and zero for two zero polynomials.
#[tactic(auto, using(crate::proofs::Once::one_common_divisor, crate::proofs::Operands::taken_is_canonical))]
pub fn gcd<F: Field>(field: &F, f: &[u16], g: &[u16], out: &mut [u16]) -> Result<usize, PolyFault>
    requires { F.made field.now }
    ensures result { CommonDivisor (F.meaning field.now) f.now g.now out.old result out.new }
    ensures once { OneCommonDivisor }
{
    check(field, f)?;
    check(field, g)?;
    deliver(&common_divisor(field, f, g), out)
}
