// The one call: a splitting step on one polynomial.
ghost use Rattle.std.specs.Option.{option_map};
ghost use Rattle.field.specs.Field.{field_of};
ghost use Rattle.split.specs.Splitting.{OneSplitting, WholeUnsplittable};
ghost use Rattle.split.specs.Kinds.{numbered};
ghost use Rattle.split.specs.Calls.{Works};

use crate::Kind;
use crate::operand::Operand;
use crate::scratch::Scratch;
use field::Field;
use poly::MOST_CODES;

// One step on the monic polynomial f of positive degree d. It answers the kind and the degrees of what f is replaced by, which goes
// into the two buffers:
// 1. f is the p-th power of the first, where p is the characteristic of the field, and the second degree is 0;
// 2. f is the product of the two, and the first is its common divisor with its derivative;
// 3. f is the product of the two, found by a shift of its least fixed polynomial;
// 4. f does not split: the first degree is its own, and nothing is written.
// It works in the first 2 * d * d codes of the scratch, and zeroes them at its end. Where f is no such polynomial, or the scratch is
// shorter, it answers none and changes nothing.
pub fn split<F: Field>(
    field: &F,
    f: &[u16],
    scratch: &mut [u16],
    first: &mut [u16; MOST_CODES],
    second: &mut [u16; MOST_CODES],
) -> Option<(Kind, usize, usize)>
    requires { F.made field.now }
    ensures works { Works (field_of F.Field field.now) f.now scratch.old first.old second.old (option_map numbered result) scratch.new first.new second.new }
    ensures once { OneSplitting }
    ensures whole { WholeUnsplittable }
{
    // one none for both refusals: a caller whose f is taken knows what the answer means
    let operand = Operand::new(field, f, scratch.len())?;
    let d = f.len() - 1;
    let guard = Scratch {
        codes: scratch,
        used: 2 * d * d,
    };
    Some(operand.split(&mut *guard.codes, first, second))
}
