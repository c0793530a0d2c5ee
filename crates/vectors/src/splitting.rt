// One step on one polynomial, over prime fields and the symbol field: kinds, degrees and pieces, and the scratch afterwards.
use crate::expect::{all_are, holds};
use field::{Field, PrimeField, Ring, SymbolField};
use poly::MOST_CODES;
use split::split;
use std::process::Abort;
use std::test::Fail;

// f, the answer, and what f is replaced by
struct Case {
    f: &'static [u16],
    kind: u8,
    left: usize,
    right: usize,
    first: &'static [u16],
    second: &'static [u16],
}

const TWO: [Case; 13] = [
    Case {
        f: &[1, 0, 1, 0, 1],
        kind: 1,
        left: 2,
        right: 0,
        first: &[1, 1, 1],
        second: &[],
    },
    Case {
        f: &[1, 1, 1],
        kind: 4,
        left: 2,
        right: 0,
        first: &[],
        second: &[],
    },
    Case {
        f: &[1, 1, 0, 1, 1, 1],
        kind: 4,
        left: 5,
        right: 0,
        first: &[],
        second: &[],
    },
    Case {
        f: &[0, 1, 1],
        kind: 3,
        left: 1,
        right: 1,
        first: &[0, 1],
        second: &[1, 1],
    },
    Case {
        f: &[1, 1, 0, 0, 1],
        kind: 4,
        left: 4,
        right: 0,
        first: &[],
        second: &[],
    },
    Case {
        f: &[0, 1],
        kind: 4,
        left: 1,
        right: 0,
        first: &[],
        second: &[],
    },
    Case {
        f: &[1, 1],
        kind: 4,
        left: 1,
        right: 0,
        first: &[],
        second: &[],
    },
    Case {
        f: &[0, 0, 1],
        kind: 1,
        left: 1,
        right: 0,
        first: &[0, 1],
        second: &[],
    },
    Case {
        f: &[0, 0, 0, 1],
        kind: 2,
        left: 2,
        right: 1,
        first: &[0, 0, 1],
        second: &[0, 1],
    },
    Case {
        f: &[1, 0, 0, 0, 1, 1, 1],
        kind: 3,
        left: 1,
        right: 5,
        first: &[1, 1],
        second: &[1, 1, 1, 1, 0, 1],
    },
    Case {
        f: &[1, 1, 1, 1, 1, 1, 1, 1],
        kind: 2,
        left: 6,
        right: 1,
        first: &[1, 0, 1, 0, 1, 0, 1],
        second: &[1, 1],
    },
    Case {
        f: &[1, 0, 0, 0, 0, 0, 0, 1],
        kind: 3,
        left: 3,
        right: 4,
        first: &[1, 1, 0, 1],
        second: &[1, 1, 1, 0, 1],
    },
    Case {
        f: &[1, 0, 0, 0, 0, 1, 0, 0, 0, 1],
        kind: 4,
        left: 9,
        right: 0,
        first: &[],
        second: &[],
    },
];

const THREE: [Case; 8] = [
    Case {
        f: &[2, 2, 1, 1],
        kind: 2,
        left: 1,
        right: 2,
        first: &[1, 1],
        second: &[2, 0, 1],
    },
    Case {
        f: &[1, 0, 1],
        kind: 4,
        left: 2,
        right: 0,
        first: &[],
        second: &[],
    },
    Case {
        f: &[1, 0, 0, 1],
        kind: 1,
        left: 1,
        right: 0,
        first: &[1, 1],
        second: &[],
    },
    Case {
        f: &[1, 2, 0, 0, 0, 0, 1, 0, 0, 1],
        kind: 3,
        left: 7,
        right: 2,
        first: &[1, 2, 2, 1, 1, 2, 0, 1],
        second: &[1, 0, 1],
    },
    Case {
        f: &[1, 1],
        kind: 4,
        left: 1,
        right: 0,
        first: &[],
        second: &[],
    },
    Case {
        f: &[0, 2, 0, 1],
        kind: 3,
        left: 1,
        right: 2,
        first: &[0, 1],
        second: &[2, 0, 1],
    },
    Case {
        f: &[2, 0, 0, 1, 0, 0, 1],
        kind: 1,
        left: 2,
        right: 0,
        first: &[2, 1, 1],
        second: &[],
    },
    Case {
        f: &[1, 2, 1, 0, 1],
        kind: 4,
        left: 4,
        right: 0,
        first: &[],
        second: &[],
    },
];

const FIVE: [Case; 6] = [
    Case {
        f: &[1, 0, 1],
        kind: 3,
        left: 1,
        right: 1,
        first: &[3, 1],
        second: &[2, 1],
    },
    Case {
        f: &[2, 0, 1],
        kind: 4,
        left: 2,
        right: 0,
        first: &[],
        second: &[],
    },
    Case {
        f: &[4, 0, 0, 0, 0, 1],
        kind: 1,
        left: 1,
        right: 0,
        first: &[4, 1],
        second: &[],
    },
    Case {
        f: &[4, 0, 0, 0, 1],
        kind: 3,
        left: 1,
        right: 3,
        first: &[4, 1],
        second: &[1, 1, 1, 1],
    },
    Case {
        f: &[0, 4, 0, 0, 0, 1],
        kind: 3,
        left: 1,
        right: 4,
        first: &[0, 1],
        second: &[4, 0, 0, 0, 1],
    },
    Case {
        f: &[2, 1, 0, 1],
        kind: 3,
        left: 1,
        right: 2,
        first: &[1, 1],
        second: &[2, 4, 1],
    },
];

const SYMBOLS: [Case; 8] = [
    Case {
        f: &[2, 0, 1],
        kind: 1,
        left: 1,
        right: 0,
        first: &[52, 1],
        second: &[],
    },
    Case {
        f: &[135, 1, 1],
        kind: 4,
        left: 2,
        right: 0,
        first: &[],
        second: &[],
    },
    Case {
        f: &[7, 3, 1],
        kind: 3,
        left: 1,
        right: 1,
        first: &[120, 1],
        second: &[123, 1],
    },
    Case {
        f: &[45, 12, 1],
        kind: 3,
        left: 1,
        right: 1,
        first: &[5, 1],
        second: &[9, 1],
    },
    Case {
        f: &[77, 95, 196, 1],
        kind: 3,
        left: 1,
        right: 2,
        first: &[5, 1],
        second: &[148, 193, 1],
    },
    Case {
        f: &[17, 0, 1],
        kind: 1,
        left: 1,
        right: 0,
        first: &[5, 1],
        second: &[],
    },
    Case {
        f: &[8, 17, 77, 1],
        kind: 2,
        left: 2,
        right: 1,
        first: &[17, 0, 1],
        second: &[77, 1],
    },
    Case {
        f: &[3, 1],
        kind: 4,
        left: 1,
        right: 0,
        first: &[],
        second: &[],
    },
];

const P251: [Case; 4] = [
    Case {
        f: &[1, 0, 1],
        kind: 4,
        left: 2,
        right: 0,
        first: &[],
        second: &[],
    },
    Case {
        f: &[250, 0, 1],
        kind: 3,
        left: 1,
        right: 1,
        first: &[250, 1],
        second: &[1, 1],
    },
    Case {
        f: &[2, 0, 1],
        kind: 3,
        left: 1,
        right: 1,
        first: &[160, 1],
        second: &[91, 1],
    },
    Case {
        f: &[194, 117, 1],
        kind: 3,
        left: 1,
        right: 1,
        first: &[100, 1],
        second: &[17, 1],
    },
];

// X^16 + X^12 + X^5 + 1 over order 2 splits into X + 1 and its cofactor.
const FRAME_CHECK: [Case; 1] = [Case {
    f: &[1, 0, 0, 0, 0, 1, 0, 0, 0, 0, 0, 0, 1, 0, 0, 0, 1],
    kind: 3,
    left: 1,
    right: 15,
    first: &[1, 1],
    second: &[1, 1, 1, 1, 1, 0, 0, 0, 0, 0, 0, 0, 1, 1, 1, 1],
}];

// The first n codes of the scratch are 0, the others still 9.
fn wiped(rt: &impl Abort, scratch: &[u16], n: usize) {
    let (front, rest) = scratch.split_at(n.min(scratch.len()));
    all_are(rt, front, 0);
    all_are(rt, rest, 9);
}

fn steps<F: Field>(rt: &impl Abort, field: &F, cases: &[Case]) -> Result<(), Fail>
    requires { F.made field.now }
{
    for case in cases {
        let mut scratch = [9u16; 520];
        let mut first = [9u16; MOST_CODES];
        let mut second = [9u16; MOST_CODES];
        let Some((kind, left, right)) = split(field, case.f, &mut scratch, &mut first, &mut second)
        else {
            return Err(Fail::new("not taken"));
        };
        assert_eq!(rt; kind.number(), case.kind);
        assert_eq!(rt; left, case.left);
        assert_eq!(rt; right, case.right);
        holds(rt, &first, case.first);
        holds(rt, &second, case.second);
        let degree = case.f.len().saturating_sub(1);
        wiped(
            rt,
            &scratch,
            degree.saturating_mul(degree).saturating_mul(2),
        );
    }
    Ok(())
}

#[test]
fn results(rt: HostRuntime) -> Result<(), Fail> {
    let two = PrimeField::new(2)?;
    steps(&rt, &two, &TWO)?;
    steps(&rt, &two, &FRAME_CHECK)?;
    steps(&rt, &PrimeField::new(3)?, &THREE)?;
    steps(&rt, &PrimeField::new(5)?, &FIVE)?;
    steps(&rt, &PrimeField::new(251)?, &P251)
}

#[test]
fn symbols(rt: HostRuntime) -> Result<(), Fail> {
    steps(&rt, &SymbolField::new(), &SYMBOLS)
}

// polynomials over order 5 that are no monic ones of positive degree
const NOT_TAKEN: [&[u16]; 7] = [&[], &[0], &[1], &[3], &[1, 2], &[1, 0], &[1, 5, 1]];

// Nothing is answered for f and a scratch of 17 codes, and nothing changes.
fn untouched<F: Field>(rt: &impl Abort, field: &F, f: &[u16])
    requires { F.made field.now }
{
    let mut scratch = [9u16; 17];
    let mut first = [9u16; MOST_CODES];
    let mut second = [9u16; MOST_CODES];
    assert!(rt; split(field, f, &mut scratch, &mut first, &mut second).is_none());
    wiped(rt, &scratch, 0);
    holds(rt, &first, &[]);
    holds(rt, &second, &[]);
}

// Where f is not taken, or the scratch is one code too short: at degree 3 it has at least 18.
#[test]
fn not_taken(rt: HostRuntime) -> Result<(), Fail> {
    let field = PrimeField::new(5)?;
    for f in NOT_TAKEN {
        untouched(&rt, &field, f);
    }
    untouched(&rt, &field, &[1, 1, 2, 1]);
    let mut scratch = [9u16; 18];
    let mut first = [9u16; MOST_CODES];
    let mut second = [9u16; MOST_CODES];
    assert!(rt; split(&field, &[1, 1, 2, 1], &mut scratch, &mut first, &mut second).is_some());
    wiped(&rt, &scratch, 18);
    Ok(())
}
