// The generator polynomial of the CCSDS (255,223) Reed-Solomon code, over any ring: the code of α is 2.
ghost use Rattle.std.specs.Prelude.{◌≡◌, ◌≤◌, take, IfOk};
ghost use Rattle.hishdugur.specs.Generator.{root_at, generator_polynomial};

use field::{ONE, Ring, power_code};
use poly::{MOST_CODES, PolyFault, product};

const ALPHA: u16 = 2;

const STEP: u32 = 11;

pub const FIRST_ROOT: u32 = 112;

pub const ROOTS: u32 = 32;

// (α^11)^i.
pub fn root<R: Ring>(ring: &R, i: u32) -> u16
    requires { R.made ring.now }
    ensures { result ≡ root_at (R.meaning ring.now) i }
{
    power_code(ring, power_code(ring, ALPHA, STEP), i)
}

// The product of X - (α^11)^i for i from 112 to 143, from index 0 on; its length.
pub fn generator<R: Ring>(ring: &R, out: &mut [u16; MOST_CODES]) -> Result<usize, PolyFault>
    requires { R.made ring.now }
    ensures within { IfOk result (λ n. n ≤ 128) }
    ensures product { IfOk result (λ n. take n out.new ≡ generator_polynomial (R.meaning ring.now)) }
{
    out[0] = ONE;
    let mut n = 1;
    for i in FIRST_ROOT..FIRST_ROOT + ROOTS {
        let factor = [ring.opposite(root(ring, i)), ONE];
        let before = *out;
        n = product(ring, &factor, &before[..n], out)?;
    }
    Ok(n)
}
