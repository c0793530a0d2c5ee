ghost use Rattle.std.specs.Prelude.{◌≡◌, ◌<◌, ◌≤◌, length, None};
ghost use Rattle.field.specs.Polynomial.{trimmed, or_zero};
ghost use Rattle.poly.specs.Calls.{written, Writes, WritesBoth};

use crate::PolyFault;
use crate::rows::polynomial_of;

// Writes a polynomial into a buffer from index 0 on, and answers its length.
fn put(codes: &[u16], out: &mut [u16]) -> usize
    requires { length codes.now ≤ length out.old }
    ensures size { result ≡ length codes.now }
    ensures after { out.new ≡ written codes.now out.old }
{
    out[..codes.len()].copy_from_slice(codes);
    codes.len()
}

// Writes the polynomial of a row into a buffer from index 0 on, and answers its length.
pub(crate) fn deliver(row: &[u16], out: &mut [u16]) -> Result<usize, PolyFault>
    requires { 0 < length row.now }
    ensures { Writes None (λ p. p ≡ or_zero (trimmed row.now)) out.old result out.new }
{
    let codes = polynomial_of(row);
    if out.len() < codes.len() {
        return Err(PolyFault::Short);
    }
    Ok(put(codes, out))
}

// Writes the polynomials of two rows into two buffers from index 0 on, and answers their lengths. Where one buffer is too short
// it writes to none.
pub(crate) fn deliver_both(
    quotients: &[u16],
    rests: &[u16],
    quotient: &mut [u16],
    remainder: &mut [u16],
) -> Result<(usize, usize), PolyFault>
    requires first { 0 < length quotients.now }
    requires second { 0 < length rests.now }
    ensures { WritesBoth None (λ p q. (p ≡ or_zero (trimmed quotients.now)) × (q ≡ or_zero (trimmed rests.now))) (record { quotient = quotient.old; remainder = remainder.old }) result (record { quotient = quotient.new; remainder = remainder.new }) }
{
    let times = polynomial_of(quotients);
    let rest = polynomial_of(rests);
    if quotient.len() < times.len() || remainder.len() < rest.len() {
        return Err(PolyFault::Short);
    }
    Ok((put(times, quotient), put(rest, remainder)))
}
