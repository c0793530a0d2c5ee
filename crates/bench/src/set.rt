// The polynomials that are split.
ghost use Rattle.std.specs.Prelude.{◌≡◌, ℕ, ◌+◌, ◌-◌, ◌<◌, length, slice_index, take, IfOk};
ghost use Rattle.field.specs.Polynomial.{product_of};
ghost use Rattle.bench.specs.Drawn.{next_number, drawn_code, linear_factors};

use field::{ONE, Ring};
use poly::{MOST_CODES, PolyFault, product};

// the frame check X^16 + X^12 + X^5 + 1
pub const FRAME_CHECK: [u16; 17] = [1, 0, 0, 0, 0, 1, 0, 0, 0, 0, 0, 0, 1, 0, 0, 0, 1];

// the generator polynomial of the CCSDS (255,223) Reed-Solomon code
pub const GENERATOR: [u16; 33] = [
    1, 91, 127, 86, 16, 30, 13, 235, 97, 165, 8, 42, 54, 86, 171, 32, 113, 32, 171, 86, 54, 42, 8,
    165, 97, 235, 13, 30, 16, 86, 127, 91, 1,
];

// the numbers of the recurrence
const MULTIPLIER: u64 = 1103515245;

const INCREMENT: u64 = 12345;

const MODULUS: u64 = 4294967296;

// The number after x in the recurrence.
fn next(x: u32) -> u32
    ensures { result ≡ next_number x }
{
    ((u64::from(x) * MULTIPLIER + INCREMENT) % MODULUS) as u32
}

// Fills a buffer with a monic polynomial whose codes are fixed but follow no simple rule: the numbers of the recurrence that come
// after 1, each divided by 2^16, modulo the order; at last the code one.
pub fn draw<R: Ring>(ring: &R, codes: &mut [u16])
    requires { R.made ring.now }
    ensures drawn { (k : ℕ) → k + 1 < length codes.new → slice_index codes.new k ≡ drawn_code (R.meaning ring.now) k }
    ensures monic { 0 < length codes.new → slice_index codes.new (length codes.new - 1) ≡ 1 }
{
    let mut x = 1;
    let order = ring.order();
    for c in codes.iter_mut() {
        x = next(x);
        *c = ((x >> 16) % order) as u16;
    }
    if let [.., last] = codes {
        *last = ONE;
    }
}

// The product of X - a for the codes a from 1 to 127, from index 0 on.
pub fn linear_product<R: Ring>(ring: &R) -> Result<[u16; MOST_CODES], PolyFault>
    requires { R.made ring.now }
    ensures { IfOk result (λ codes. (n : ℕ) × (take n codes ≡ product_of (R.meaning ring.now) (linear_factors (R.meaning ring.now) 127))) }
{
    let mut codes = [0u16; MOST_CODES];
    codes[0] = ONE;
    let mut n = 1;
    for a in 1..MOST_CODES as u16 {
        let factor = [ring.opposite(a), ONE];
        let before = codes;
        n = product(ring, &factor, &before[..n], &mut codes)?;
    }
    Ok(codes)
}
