// The steps of a job, read apart from the library's own reading of jobs: the field is made level by level, the polynomials are
// entered and the worksheet is stepped. Nothing is printed of a job that is not a good one. The kinds of levels stand as the bytes
// that they are, so that no name is shared with that reading.
ghost use Rattle.std.specs.Prelude.{IfSome};

use crate::steps::show_steps;
use extension::Extension;
use field::{Field, PrimeField, Ring, SymbolField};

// Prints the answers of the steps of a job.
pub fn replay(rt: &(impl Print + AllocGlobal), bytes: &[u8]) -> anyhow::Result<()> {
    match bytes {
        [levels, 1, p, rest @ ..] => match PrimeField::new(u32::from(*p)) {
            Ok(base) => climb(rt, base, *levels, rest),
            Err(_) => Ok(()),
        },
        [levels, 2, rest @ ..] => climb(rt, SymbolField::new(), *levels, rest),
        _ => Ok(()),
    }
}

// The steps over a field of so many levels, of which the first is made.
fn climb<F: Field>(
    rt: &(impl Print + AllocGlobal),
    base: F,
    levels: u8,
    bytes: &[u8],
) -> anyhow::Result<()>
    requires { F.made base }
{
    // by hand: each level has a type of its own, so no loop can hold it
    if levels == 1 {
        return show_steps(rt, base, bytes);
    }
    let Some((second, bytes)) = above(base, bytes) else {
        return Ok(());
    };
    if levels == 2 {
        return show_steps(rt, second, bytes);
    }
    let Some((third, bytes)) = above(second, bytes) else {
        return Ok(());
    };
    show_steps(rt, third, bytes)
}

// The extension of a field that the first bytes name, and the bytes behind them.
fn above<F: Field>(base: F, bytes: &[u8]) -> Option<(Extension<F>, &[u8])>
    requires { F.made base }
    ensures { IfSome result (λ r. ⟦<Extension<F> as Ring>⟧.made r.0) }
{
    let [3, k, low, high, rest @ ..] = bytes else {
        return None;
    };
    let m = u16::from_le_bytes([*low, *high]);
    let field = Extension::new(base, u32::from(*k), u32::from(m)).ok()?;
    Some((field, rest))
}
