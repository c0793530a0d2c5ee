// Lists of calls on a worksheet, over prime fields, the symbol field and towers: what each answers, and what stands after it.
ghost use Rattle.worksheet.specs.Meaning.{SheetMade};

use crate::expect::{Refusal, holds, of_field, refusal_in, refused};
use extension::Extension;
use field::{Field, PrimeField, SymbolField};
use poly::MOST_CODES;
use std::process::Abort;
use std::test::Fail;
use worksheet::{Room, Worksheet};

// A call with what it answers, or with its refusal; and what stands between calls.
enum Call {
    Enter(&'static [u16], usize),
    NotEntered(&'static [u16], Refusal),
    Step(u8, usize, usize),
    NotStepped(Refusal),
    Take(usize, &'static [u16]),
    // a number and the length of a buffer
    NotTaken(usize, usize, Refusal),
    NotRead(usize, usize, Refusal),
    // the unit, and how many parts are open
    Unit(u16, usize),
    // a number, the codes, the multiplicity, and whether the part is open
    Part(usize, &'static [u16], u32, bool),
    // how many parts there are
    Count(usize),
}

// Makes a call, or looks at what stands.
fn make<F: Field>(rt: &impl Abort, sheet: &mut Worksheet<F>, call: &Call, scratch: &mut [u16])
    requires { SheetMade F.Field sheet.old }
    ensures { SheetMade F.Field sheet.new }
{
    let mut buffer = [9u16; MOST_CODES];
    match call {
        Call::Enter(f, degree) => assert_eq!(rt; sheet.enter(f).ok(), Some(*degree)),
        Call::NotEntered(f, why) => refused(rt, sheet.enter(f), *why),
        Call::Step(kind, left, right) => {
            let told = sheet.step(scratch).ok();
            let told = told.map(|(kind, left, right)| (kind.number(), left, right));
            assert_eq!(rt; told, Some((*kind, *left, *right)));
        }
        Call::NotStepped(why) => refused(rt, sheet.step(scratch), *why),
        Call::Take(number, codes) => {
            let degree = sheet.take(*number, &mut buffer).ok();
            assert_eq!(rt; degree, Some(codes.len().saturating_sub(1)));
            holds(rt, &buffer, codes);
        }
        Call::NotTaken(number, room, why) => {
            let out = &mut buffer[..(*room).min(MOST_CODES)];
            refused(rt, sheet.take(*number, out), *why);
        }
        Call::NotRead(number, room, why) => {
            let out = &mut buffer[..(*room).min(MOST_CODES)];
            refused(rt, sheet.read(*number, out), *why);
        }
        Call::Unit(unit, open) => {
            assert_eq!(rt; (sheet.unit(), sheet.open_count()), (*unit, *open));
        }
        Call::Part(number, codes, times, open) => {
            let part = sheet.read(*number, &mut buffer).ok();
            let part = part.map(|(degree, times, mark)| (degree, times, mark.is_open()));
            assert_eq!(rt; part, Some((codes.len().saturating_sub(1), *times, *open)));
            holds(rt, &buffer, codes);
        }
        Call::Count(count) => assert_eq!(rt; sheet.count(), *count),
    }
}

fn play<F: Field>(rt: &impl Abort, sheet: &mut Worksheet<F>, calls: &[Call], scratch: &mut [u16])
    requires { SheetMade F.Field sheet.old }
    ensures { SheetMade F.Field sheet.new }
{
    for call in calls {
        make(rt, sheet, call, scratch);
    }
}

// Plays a list of calls on a worksheet of its own, with this much scratch.
fn plays<F: Field>(
    rt: &(impl Abort + AllocGlobal),
    field: F,
    calls: &[Call],
    scratch: &mut [u16],
) -> Result<(), Fail>
    requires { F.made field }
{
    let mut sheet = Worksheet::new(Room::new(rt.alloc())?, field);
    play(rt, &mut sheet, calls, scratch);
    Ok(())
}

// X^16 + X^12 + X^5 + 1 over order 2
const FRAME_CHECK: [Call; 9] = [
    Call::NotStepped(Refusal(22, 3, 0)),
    Call::Enter(&[1, 0, 0, 0, 0, 1, 0, 0, 0, 0, 0, 0, 1, 0, 0, 0, 1], 16),
    Call::Step(3, 1, 15),
    Call::Step(4, 1, 0),
    Call::Unit(1, 1),
    Call::Step(4, 15, 0),
    Call::NotStepped(Refusal(22, 3, 0)),
    Call::Part(0, &[1, 1], 1, false),
    Call::Part(
        1,
        &[1, 1, 1, 1, 1, 0, 0, 0, 0, 0, 0, 0, 1, 1, 1, 1],
        1,
        false,
    ),
];

// X^4 + X^2 + 1 over order 2 has no zero in the field, and splits
const NO_ZERO: [Call; 5] = [
    Call::Enter(&[1, 0, 1, 0, 1], 4),
    Call::Step(1, 2, 0),
    Call::Part(0, &[1, 1, 1], 2, true),
    Call::Step(4, 2, 0),
    Call::Part(0, &[1, 1, 1], 2, false),
];

// operands that are refused, and those at the border that are not, over order 3
const ENTRIES: [Call; 13] = [
    Call::NotEntered(&[], Refusal(10, 2, 0)),
    Call::NotEntered(&[0, 1, 3, 4, 0], Refusal(11, 2, 2)),
    Call::NotEntered(&[1, 2, 0], Refusal(12, 2, 2)),
    Call::NotEntered(&[0], Refusal(20, 3, 0)),
    Call::Unit(1, 0),
    Call::Count(0),
    Call::Enter(&[2], 0),
    Call::Unit(2, 0),
    Call::Count(0),
    Call::Enter(&[1, 2], 1),
    Call::Unit(1, 1),
    Call::Part(0, &[2, 1], 1, true),
    Call::Count(1),
];

// X^3 + X^2 + 2X + 2 over order 3, with takes between steps, a part entered again after it was taken, and one that stands settled
const TAKES: [Call; 30] = [
    Call::NotTaken(0, 128, Refusal(24, 3, 0)),
    Call::Enter(&[2, 2, 1, 1], 3),
    Call::NotTaken(0, 128, Refusal(25, 3, 0)),
    Call::NotTaken(0, 0, Refusal(25, 3, 0)),
    Call::NotTaken(1, 128, Refusal(24, 3, 0)),
    Call::NotRead(1, 128, Refusal(24, 3, 0)),
    Call::NotRead(0, 3, Refusal(14, 3, 0)),
    Call::Part(0, &[2, 2, 1, 1], 1, true),
    Call::Step(2, 1, 2),
    Call::Part(0, &[1, 1], 1, true),
    Call::Part(1, &[2, 0, 1], 1, true),
    Call::Step(4, 1, 0),
    Call::NotTaken(0, 1, Refusal(14, 3, 0)),
    Call::NotRead(0, 1, Refusal(14, 3, 0)),
    Call::Step(3, 1, 1),
    Call::Part(0, &[1, 1], 2, false),
    Call::Part(1, &[2, 1], 1, true),
    Call::Take(0, &[1, 1]),
    Call::Part(0, &[1, 1], 1, false),
    Call::Step(4, 1, 0),
    Call::Take(1, &[2, 1]),
    Call::Count(1),
    Call::Enter(&[1, 2], 1),
    Call::Part(1, &[2, 1], 1, true),
    Call::Enter(&[2, 2], 1),
    Call::Part(0, &[1, 1], 2, false),
    Call::Unit(1, 1),
    Call::Step(4, 1, 0),
    Call::NotStepped(Refusal(22, 3, 0)),
    Call::Unit(1, 0),
];

// X^2 + X + 1 and X^2 + 2 over order 4, the extension of order 2 by t^2 + t + 1
const FOUR: [Call; 6] = [
    Call::Enter(&[1, 1, 1], 2),
    Call::Step(3, 1, 1),
    Call::Part(0, &[2, 1], 1, true),
    Call::Part(1, &[3, 1], 1, true),
    Call::Enter(&[2, 0, 1], 2),
    Call::Count(3),
];

const FOUR_ROOT: [Call; 4] = [
    Call::Enter(&[2, 0, 1], 2),
    Call::Step(1, 1, 0),
    Call::Part(0, &[3, 1], 2, true),
    Call::Count(1),
];

#[test]
fn lists(rt: HostRuntime) -> Result<(), Fail> {
    let mut scratch = [9u16; 512];
    let two = PrimeField::new(2)?;
    plays(&rt, two, &FRAME_CHECK, &mut scratch)?;
    plays(&rt, two, &NO_ZERO, &mut scratch)?;
    let three = PrimeField::new(3)?;
    plays(&rt, three, &ENTRIES, &mut scratch)?;
    plays(&rt, three, &TAKES, &mut scratch)?;
    let four = Extension::new(two, 2, 3)?;
    plays(&rt, four, &FOUR, &mut scratch)?;
    plays(&rt, four, &FOUR_ROOT, &mut scratch)
}

// The highest total degree, over order 3: X^127, then X is refused and a constant is not.
const FULL: [Call; 4] = [
    Call::NotEntered(&[0, 1], Refusal(21, 3, 0)),
    Call::NotEntered(&[0], Refusal(20, 3, 0)),
    Call::Enter(&[2], 0),
    Call::Unit(2, 1),
];

// 2 times 127 times 127 codes of scratch are enough for it, and one less is not
const SHORT: [Call; 1] = [Call::NotStepped(Refusal(23, 3, 0))];

const LONG: [Call; 3] = [
    Call::Step(2, 126, 1),
    Call::Count(2),
    Call::Part(0, &[0, 1], 1, true),
];

#[test]
fn full(rt: HostRuntime) -> Result<(), Fail> {
    let mut sheet = Worksheet::new(Room::new(rt.alloc())?, PrimeField::new(3)?);
    let mut power = [0u16; 129];
    power[127] = 1;
    assert_eq!(rt; sheet.enter(&power[..128]).ok(), Some(127));
    play(&rt, &mut sheet, &FULL, &mut []);
    play(&rt, &mut sheet, &SHORT, &mut [9u16; 32257]);
    play(&rt, &mut sheet, &LONG, &mut [9u16; 32258]);
    refused(&rt, sheet.enter(&power), Refusal(10, 2, 0));
    Ok(())
}

// towers: order 16 over order 4 over order 2, order 256 over that, order 9 over 3, order 65,536 over the symbol field
const SIXTEEN: [Call; 7] = [
    Call::Enter(&[5, 0, 0, 0, 1], 4),
    Call::Step(1, 2, 0),
    Call::Step(1, 1, 0),
    Call::Step(4, 1, 0),
    Call::NotStepped(Refusal(22, 3, 0)),
    Call::Part(0, &[4, 1], 4, false),
    Call::Count(1),
];

const ABOVE_SIXTEEN: [Call; 5] = [
    Call::Enter(&[1, 1, 1], 2),
    Call::Step(3, 1, 1),
    Call::Part(0, &[2, 1], 1, true),
    Call::Enter(&[200, 7, 1, 1], 3),
    Call::Part(2, &[200, 7, 1, 1], 1, true),
];

const WHOLE_CUBIC: [Call; 2] = [Call::Enter(&[200, 7, 1, 1], 3), Call::Step(4, 3, 0)];

const NINE: [Call; 4] = [
    Call::Enter(&[1, 0, 1], 2),
    Call::Step(3, 1, 1),
    Call::Part(0, &[4, 1], 1, true),
    Call::Part(1, &[8, 1], 1, true),
];

const OVER_SYMBOLS: [Call; 10] = [
    Call::Enter(&[1, 1, 0, 1, 1], 4),
    Call::Step(2, 2, 2),
    Call::Step(1, 1, 0),
    Call::Step(4, 1, 0),
    Call::Step(3, 1, 1),
    Call::Step(4, 1, 0),
    Call::Step(4, 1, 0),
    Call::Part(0, &[1, 1], 2, false),
    Call::Part(1, &[170, 1], 1, false),
    Call::Part(2, &[171, 1], 1, false),
];

#[test]
fn towers(rt: HostRuntime) -> Result<(), Fail> {
    let mut scratch = [9u16; 32];
    let sixteen = Extension::new(Extension::new(PrimeField::new(2)?, 2, 3)?, 2, 6)?;
    plays(&rt, sixteen, &SIXTEEN, &mut scratch)?;
    let above = Extension::new(sixteen, 2, 24)?;
    plays(&rt, above, &ABOVE_SIXTEEN, &mut scratch)?;
    plays(&rt, above, &WHOLE_CUBIC, &mut scratch)?;
    plays(
        &rt,
        Extension::new(PrimeField::new(3)?, 2, 8)?,
        &NINE,
        &mut scratch,
    )?;
    plays(
        &rt,
        Extension::new(SymbolField::new(), 2, 258)?,
        &OVER_SYMBOLS,
        &mut scratch,
    )
}

// modulus of the prime field, k, m, the number of the refusal
const EXTENSIONS: [(u32, u32, u32, Option<u8>); 16] = [
    (2, 1, 0, Some(3)),
    (2, 2, 0, Some(6)),
    (2, 2, 1, Some(6)),
    (2, 2, 2, Some(6)),
    (2, 2, 3, None),
    (2, 2, 4, Some(5)),
    (2, 16, 43, None),
    (2, 16, 1, Some(6)),
    (2, 16, 65536, Some(5)),
    (2, 17, 0, Some(3)),
    (3, 2, 8, None),
    (3, 2, 9, Some(5)),
    (3, 11, 0, Some(4)),
    (3, 17, 0, Some(3)),
    (251, 2, 1, None),
    (251, 3, 1, Some(4)),
];

#[test]
fn extensions(rt: HostRuntime) -> Result<(), Fail> {
    for (p, k, m, number) in EXTENSIONS {
        let made = Extension::new(PrimeField::new(p)?, k, m);
        assert_eq!(rt; refusal_in(made), number.map(of_field));
    }
    Ok(())
}
