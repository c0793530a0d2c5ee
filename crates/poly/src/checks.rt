ghost use Rattle.std.specs.Prelude.{◌≡◌};
ghost use Rattle.poly.specs.Faults.{operand_refusal};
ghost use Rattle.poly.specs.Calls.{Passes};

use crate::{MOST_CODES, PolyFault};
use field::Ring;

// Whether f is a polynomial over the ring: refused with 10, 11 or 12 where it is not.
pub fn check<R: Ring>(ring: &R, f: &[u16]) -> Result<(), PolyFault>
    requires { R.made ring.now }
    ensures { Passes (operand_refusal (R.meaning ring.now) f.now) result }
{
    if f.is_empty() || f.len() > MOST_CODES {
        return Err(PolyFault::Length);
    }
    let order = ring.order();
    for (i, c) in f.iter().enumerate() {
        if u32::from(*c) >= order {
            return Err(PolyFault::NotCode(i));
        }
    }
    if f.len() > 1 && f.last() == Some(&0) {
        return Err(PolyFault::LastZero(f.len() - 1));
    }
    Ok(())
}
