// The root that a polynomial has whose derivative is zero.
ghost use Rattle.std.specs.Prelude.{◌≡◌, ℕ, ◌*◌, ◌<◌, ◌≤◌, length};
ghost use Rattle.field.specs.Ring.{power};
ghost use Rattle.field.specs.Polynomial.{coefficient};
ghost use Rattle.field.specs.Rows.{Written};

use field::{Ring, power_code};

// Writes, for each i below `count`, the coefficient of f at power p * i, raised to the power n.
pub(crate) fn root_codes<R: Ring>(
    ring: &R,
    p: usize,
    n: u32,
    count: usize,
    f: &[u16],
    out: &mut [u16],
)
    requires made { R.made ring.now }
    requires codes { (i : ℕ) → coefficient f.now i < (R.meaning ring.now).order }
    requires within { (i : ℕ) → i < count → p * i < length f.now }
    requires short { length f.now ≤ 128 }
    requires room { count ≤ length out.old }
    ensures { Written out.old out.new 0 count (λ i. power (R.meaning ring.now) (coefficient f.now (p * i)) n) }
{
    // by index: steps of p over f would ask for p above 0
    for (i, c) in out[0..count].iter_mut().enumerate() {
        *c = power_code(ring, f[p * i], n);
    }
}
