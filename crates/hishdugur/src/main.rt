// Forms the generator polynomial of the CCSDS (255,223) Reed-Solomon code over the symbol field and evaluates it at its 32 roots; then,
// over order 2, multiplies the frame check polynomial X^16 + X^12 + X^5 + 1 back from its factors, divides it by its derivative and takes
// their greatest common divisor, and makes one splitting step on it.
#![tactic(auto)]

ghost use Rattle.std.specs.Prelude.{◌≡◌, min, length, take, IfOk};
ghost use Rattle.field.specs.Residues.{residues};

mod work;

use anyhow::Context;
use field::{PrimeField, Ring, SymbolField};
use poly::{MOST_CODES, derivative, divide, gcd, product, value};
use split::split;
use work::{FIRST_ROOT, ROOTS, generator, root};

// X + 1, and the cofactor of X^16 + X^12 + X^5 + 1 over order 2
const LINEAR: [u16; 2] = [1, 1];

const COFACTOR: [u16; 16] = [1, 1, 1, 1, 1, 0, 0, 0, 0, 0, 0, 0, 1, 1, 1, 1];

// the codes of scratch of a step on a polynomial of degree 16
const SCRATCH: usize = 512;

// A polynomial with the order of its ring.
#[derive(Clone, Copy)]
struct Polynomial<'a> {
    order: u32,
    codes: &'a [u16],
}

impl<'a> Polynomial<'a> {
    // The polynomial whose codes are the first n of a buffer, or all of them.
    fn over<R: Ring>(ring: &R, codes: &'a [u16], n: usize) -> Polynomial<'a>
        requires { R.made ring.now }
        ensures codes { result.codes.now ≡ take (min n (length codes.now)) codes.now }
        ensures order { result.order ≡ (R.meaning ring.now).order }
    {
        Polynomial {
            order: ring.order(),
            codes: &codes[..n.min(codes.len())],
        }
    }

    // Prints it on a line, code by code.
    fn show(&self, rt: &impl Print) -> anyhow::Result<()> {
        let order = self.order;
        let degree = self.codes.len().saturating_sub(1);
        print!(rt; "order {order} degree {degree} codes")?;
        for c in self.codes {
            print!(rt; " {c}")?;
        }
        println!(rt)?;
        Ok(())
    }
}

fn reed_solomon(rt: &impl Print) -> anyhow::Result<()> {
    let field = SymbolField::new();
    let mut codes = [0u16; MOST_CODES];
    let n = generator(&field, &mut codes)
        .ok()
        .context("the generator polynomial is refused")?;
    let polynomial = Polynomial::over(&field, &codes, n);
    polynomial.show(rt)?;
    let zeros = (FIRST_ROOT..FIRST_ROOT + ROOTS)
        .filter(|i| value(&field, polynomial.codes, root(&field, *i)) == Ok(0))
        .count();
    println!(rt; "zero at {zeros} of its {ROOTS} roots")?;
    Ok(())
}

// The field of order 2.
fn binary_field() -> anyhow::Result<PrimeField>
    ensures { IfOk result (λ field. ⟦<PrimeField as Ring>⟧.made field × (⟦<PrimeField as Ring>⟧.meaning field ≡ residues 2)) }
{
    PrimeField::new(2).ok().context("order 2 is refused")
}

fn frame_check(rt: &impl Print) -> anyhow::Result<()> {
    let field = binary_field()?;
    let mut codes = [0u16; MOST_CODES];
    let n = product(&field, &LINEAR, &COFACTOR, &mut codes)
        .ok()
        .context("the product is refused")?;
    let check = Polynomial::over(&field, &codes, n);
    check.show(rt)?;
    against_derivative(rt, field, check.codes)?;
    split_once(rt, field, check.codes)
}

// Divides a polynomial by its derivative, and takes their greatest common divisor.
fn against_derivative(rt: &impl Print, field: PrimeField, check: &[u16]) -> anyhow::Result<()>
    requires { ⟦<PrimeField as Ring>⟧.made field }
{
    let mut slope = [0u16; MOST_CODES];
    let n = derivative(&field, check, &mut slope)
        .ok()
        .context("the derivative is refused")?;
    let slope = Polynomial::over(&field, &slope, n).codes;
    let mut quotient = [0u16; MOST_CODES];
    let mut remainder = [0u16; MOST_CODES];
    let (k, l) = divide(&field, check, slope, &mut quotient, &mut remainder)
        .ok()
        .context("the division is refused")?;
    print!(rt; "by its derivative: quotient ")?;
    Polynomial::over(&field, &quotient, k).show(rt)?;
    print!(rt; "by its derivative: remainder ")?;
    Polynomial::over(&field, &remainder, l).show(rt)?;
    let mut common = [0u16; MOST_CODES];
    let d = gcd(&field, check, slope, &mut common)
        .ok()
        .context("the common divisor is refused")?;
    print!(rt; "with its derivative: common divisor ")?;
    Polynomial::over(&field, &common, d).show(rt)
}

// One splitting step, with the two pieces.
fn split_once(rt: &impl Print, field: PrimeField, check: &[u16]) -> anyhow::Result<()>
    requires { ⟦<PrimeField as Ring>⟧.made field }
{
    let mut scratch = [0u16; SCRATCH];
    let mut first = [0u16; MOST_CODES];
    let mut second = [0u16; MOST_CODES];
    let (kind, left, right) = split(&field, check, &mut scratch, &mut first, &mut second).context(
        "the step is not taken",
    )?;
    let number = kind.number();
    println!(rt; "splits as ({number},{left},{right})")?;
    Polynomial::over(&field, &first, left.saturating_add(1)).show(rt)?;
    Polynomial::over(&field, &second, right.saturating_add(1)).show(rt)
}

fn run(rt: &impl Print) -> anyhow::Result<()> {
    reed_solomon(rt)?;
    frame_check(rt)
}

fn main(rt: HostRuntime) -> anyhow::Result<()> {
    run(&rt)
}
