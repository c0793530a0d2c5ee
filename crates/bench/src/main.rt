// Splits a fixed set of polynomials, and prints for each its name, the order of its field, its degree, the steps of its splitting
// and the number of its parts. With the argument `time` it splits each several times and prints the shortest time too.
#![tactic(auto)]

ghost use Rattle.std.specs.Prelude.{IfOk};
ghost use Rattle.worksheet.specs.Meaning.{SheetMade};

mod set;

use anyhow::Context;
use extension::Extension;
use field::{Field, PrimeField, Ring, SymbolField};
use poly::MOST_CODES;
use set::{FRAME_CHECK, GENERATOR, draw, linear_product};
use std::env;
use std::rt::{Clock, Env};
use std::time::{Duration, Instant};
use worksheet::{MOST_SCRATCH, MOST_STEPS, Room, Worksheet};

// how often each polynomial is split for a time
const RUNS: u32 = 7;

// the codes of the polynomial over the tower, which is of degree 16
const TOWER_CODES: usize = 17;

// the tower of order 65,536: t^2 + t + 2 over the symbol field, which does not split
const TOWER_HEIGHT: u32 = 2;

const TOWER_NUMBER: u32 = 258;

// The time of the steps of a splitting, and what came of it: ordered by the time.
#[derive(Clone, Copy, PartialEq, Eq, PartialOrd, Ord)]
struct Outcome {
    time: Duration,
    steps: u32,
    parts: usize,
}

// What is printed of one polynomial, with a time where one is wanted.
#[derive(Clone, Copy)]
struct Line<'a> {
    name: &'a str,
    order: u32,
    degree: usize,
    outcome: Outcome,
    timed: bool,
}

impl Line<'_> {
    // Prints it, part by part.
    fn show(&self, rt: &impl Print) -> anyhow::Result<()> {
        let Line {
            name,
            order,
            degree,
            outcome,
            timed,
        } = *self;
        let Outcome { time, steps, parts } = outcome;
        print!(rt; "{name}: order {order} degree {degree} steps {steps} parts {parts}")?;
        if timed {
            let nanoseconds = time.as_nanos();
            print!(rt; " nanoseconds {nanoseconds}")?;
        }
        println!(rt)?;
        Ok(())
    }
}

// Steps until no part is open, and answers how many steps there were.
fn settle<F: Field>(sheet: &mut Worksheet<F>, scratch: &mut [u16]) -> u32
    requires { SheetMade F.Field sheet.old }
{
    for steps in 0..MOST_STEPS {
        if sheet.step(scratch).is_err() {
            return steps;
        }
    }
    MOST_STEPS
}

// Enters a polynomial and steps until no part is open. Only the steps are timed.
fn split_once<F: Field>(
    rt: &(impl Clock + AllocGlobal),
    field: F,
    f: &[u16],
) -> anyhow::Result<Outcome>
    requires { F.made field }
{
    let mut sheet = Worksheet::new(Room::new(rt.alloc())?, field);
    let _ = sheet.enter(f).ok().context("a polynomial is refused")?;
    let mut scratch = [0u16; MOST_SCRATCH];
    let start = Instant::now(rt)?;
    let steps = settle(&mut sheet, &mut scratch);
    let time = start.elapsed(rt)?;
    Ok(Outcome {
        time,
        steps,
        parts: sheet.count(),
    })
}

// Splits a polynomial as often as told, and answers the outcome with the shortest time.
fn best_of<F: Field>(
    rt: &(impl Clock + AllocGlobal),
    runs: u32,
    field: F,
    f: &[u16],
) -> anyhow::Result<Outcome>
    requires { F.made field }
{
    let mut best = split_once(rt, field, f)?;
    for _ in 1..runs {
        best = best.min(split_once(rt, field, f)?);
    }
    Ok(best)
}

// The prime field of order p.
fn prime_field(p: u32) -> anyhow::Result<PrimeField>
    ensures { IfOk result (λ field. ⟦<PrimeField as Ring>⟧.made field) }
{
    PrimeField::new(p).ok().context("a prime field is refused")
}

// The tower of order 65,536 over the symbol field.
fn tower() -> anyhow::Result<Extension<SymbolField>>
    ensures { IfOk result (λ field. ⟦<Extension<SymbolField> as Ring>⟧.made field) }
{
    Extension::new(SymbolField::new(), TOWER_HEIGHT, TOWER_NUMBER)
        .ok()
        .context("the tower is refused")
}

// What prints, tells the time and gives memory, and whether times are wanted.
#[derive(Clone, Copy)]
struct Bench<'a, T> {
    rt: &'a T,
    timed: bool,
}

impl<T: Print + Clock + AllocGlobal> Bench<'_, T> {
    // Splits a polynomial and prints its line.
    fn measure<F: Field>(&self, name: &str, field: F, f: &[u16]) -> anyhow::Result<()>
        requires { F.made field }
    {
        let runs = if self.timed { RUNS } else { 1 };
        let line = Line {
            name,
            order: field.order(),
            degree: f.len().saturating_sub(1),
            outcome: best_of(self.rt, runs, field, f)?,
            timed: self.timed,
        };
        line.show(self.rt)
    }

    // The polynomial of fixed codes of the greatest degree.
    fn measure_drawn<F: Field>(&self, field: F) -> anyhow::Result<()>
        requires { F.made field }
    {
        let mut codes = [0u16; MOST_CODES];
        draw(&field, &mut codes);
        self.measure("drawn", field, &codes)
    }

    // The product of linear factors of the greatest degree.
    fn measure_linear<F: Field>(&self, field: F) -> anyhow::Result<()>
        requires { F.made field }
    {
        let codes = linear_product(&field).ok().context("a product is refused")?;
        self.measure("linear factors", field, &codes)
    }

    // The polynomials over the prime fields.
    fn over_primes(&self) -> anyhow::Result<()> {
        self.measure("frame check", prime_field(2)?, &FRAME_CHECK)?;
        for p in [2, 3, 251] {
            self.measure_drawn(prime_field(p)?)?;
        }
        self.measure_linear(prime_field(251)?)
    }

    // The polynomials over the symbol field, and the one over the tower on it.
    fn over_symbols(&self) -> anyhow::Result<()> {
        let symbols = SymbolField::new();
        self.measure("code generator", symbols, &GENERATOR)?;
        self.measure_drawn(symbols)?;
        self.measure_linear(symbols)?;
        let tower = tower()?;
        let mut codes = [0u16; TOWER_CODES];
        draw(&tower, &mut codes);
        self.measure("drawn", tower, &codes)
    }
}

fn main(rt: HostRuntime) -> anyhow::Result<()> {
    let timed = env::args(&rt)?.any(|arg| arg.as_str() == "time");
    let bench = Bench { rt: &rt, timed };
    bench.over_primes()?;
    bench.over_symbols()
}
