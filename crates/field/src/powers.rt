// Powers of codes.
ghost use Rattle.std.specs.Prelude.{◌≡◌};
ghost use Rattle.field.specs.Ring.{power};

use crate::{ONE, Ring};

// The code a to the power n, by squaring: about as many products as n has digits in base 2. A number that is no code has the power
// 1 at 0, and 0 above.
pub fn power_code<R: Ring>(ring: &R, a: u16, n: u32) -> u16
    requires { R.made ring.now }
    ensures { result ≡ power (R.meaning ring.now) a n }
{
    let mut result = ONE;
    let mut base = a;
    let mut rest = n;
    while rest > 0 {
        if rest % 2 == 1 {
            result = ring.product(result, base);
        }
        base = ring.product(base, base);
        rest /= 2;
    }
    result
}
