// Division and common divisors over orders 2, 3, 251 and 256, and their refusals at the borders.
use crate::expect::{Refusal, holds, refused};
use field::{Field, PrimeField, Ring, SymbolField};
use poly::{divide, gcd};
use std::process::Abort;
use std::test::Fail;

// quotient and remainder of f by g, and the greatest common divisor of left and right
struct Case {
    f: &'static [u16],
    g: &'static [u16],
    quotient: &'static [u16],
    remainder: &'static [u16],
    left: &'static [u16],
    right: &'static [u16],
    common: &'static [u16],
}

const TWO: [Case; 7] = [
    Case {
        f: &[0, 1, 0, 1, 0, 1],
        g: &[0, 0, 1],
        quotient: &[0, 1, 0, 1],
        remainder: &[0, 1],
        left: &[0, 0, 1, 0, 1, 0, 1],
        right: &[0, 0, 0, 1],
        common: &[0, 0, 1],
    },
    Case {
        f: &[0, 1, 1, 1],
        g: &[0, 0, 1, 1],
        quotient: &[1],
        remainder: &[0, 1],
        left: &[0, 0, 1, 1, 1],
        right: &[0, 0, 0, 1, 1],
        common: &[0, 0, 1],
    },
    Case {
        f: &[1, 1],
        g: &[0, 1, 0, 0, 1],
        quotient: &[0],
        remainder: &[1, 1],
        left: &[0, 1, 1],
        right: &[0, 0, 1, 0, 0, 1],
        common: &[0, 1, 1],
    },
    Case {
        f: &[1, 0, 0, 1, 0, 0, 1],
        g: &[1],
        quotient: &[1, 0, 0, 1, 0, 0, 1],
        remainder: &[0],
        left: &[1, 1, 0, 1, 1, 0, 1, 1],
        right: &[1, 1],
        common: &[1, 1],
    },
    Case {
        f: &[0, 1, 1, 1, 1],
        g: &[1, 1],
        quotient: &[0, 1, 0, 1],
        remainder: &[0],
        left: &[0, 0, 1, 1, 1, 1],
        right: &[0, 1, 1],
        common: &[0, 1, 1],
    },
    Case {
        f: &[1],
        g: &[1],
        quotient: &[1],
        remainder: &[0],
        left: &[0, 1],
        right: &[0, 1],
        common: &[0, 1],
    },
    Case {
        f: &[1, 0, 1, 1, 1, 0, 0, 1, 1],
        g: &[1, 1, 0, 0, 1],
        quotient: &[1, 1, 0, 1, 1],
        remainder: &[0],
        left: &[0, 1, 0, 1, 1, 1, 0, 0, 1, 1],
        right: &[0, 1, 1, 0, 0, 1],
        common: &[0, 1, 1, 0, 0, 1],
    },
];

const THREE: [Case; 7] = [
    Case {
        f: &[1, 0, 2, 0, 1, 2],
        g: &[2, 2, 2],
        quotient: &[2, 1, 1, 1],
        remainder: &[0],
        left: &[2, 1, 1, 2, 2, 2, 2],
        right: &[1, 0, 0, 2],
        common: &[2, 0, 0, 1],
    },
    Case {
        f: &[0, 1, 0, 2],
        g: &[0, 1, 1, 2],
        quotient: &[1],
        remainder: &[0, 0, 2],
        left: &[0, 0, 1, 0, 2],
        right: &[0, 0, 1, 1, 2],
        common: &[0, 0, 1],
    },
    Case {
        f: &[1, 2],
        g: &[1, 0, 0, 0, 1],
        quotient: &[0],
        remainder: &[1, 2],
        left: &[2, 2, 2],
        right: &[2, 1, 0, 0, 2, 1],
        common: &[2, 1],
    },
    Case {
        f: &[1, 2, 0, 2, 1, 2, 2],
        g: &[1],
        quotient: &[1, 2, 0, 2, 1, 2, 2],
        remainder: &[0],
        left: &[2, 0, 1, 1, 0, 0, 2, 1],
        right: &[2, 2],
        common: &[1, 1],
    },
    Case {
        f: &[1, 2, 1, 1, 2],
        g: &[0, 2],
        quotient: &[1, 2, 2, 1],
        remainder: &[1],
        left: &[2, 0, 0, 1, 0, 1],
        right: &[0, 1, 1],
        common: &[1, 1],
    },
    Case {
        f: &[2],
        g: &[1],
        quotient: &[2],
        remainder: &[0],
        left: &[1, 2],
        right: &[2, 1],
        common: &[2, 1],
    },
    Case {
        f: &[2, 0, 2, 1, 0, 0, 0, 1, 1],
        g: &[1, 2, 1, 2, 1],
        quotient: &[0, 0, 1, 2, 1],
        remainder: &[2, 0, 1],
        left: &[2, 2, 2, 0, 1, 0, 0, 1, 2, 1],
        right: &[1, 0, 0, 0, 0, 1],
        common: &[1, 1],
    },
];

const P251: [Case; 7] = [
    Case {
        f: &[8, 120, 157, 211, 229, 67],
        g: &[137, 51, 209],
        quotient: &[182, 138, 110, 100],
        remainder: &[174, 44],
        left: &[177, 75, 196, 63, 177, 12, 104],
        right: &[176, 212, 5, 242],
        common: &[166, 1],
    },
    Case {
        f: &[102, 8, 209, 99],
        g: &[181, 50, 61, 83],
        quotient: &[228],
        remainder: &[249, 154, 106],
        left: &[191, 137, 246, 190, 151],
        right: &[115, 153, 11, 151, 48],
        common: &[194, 1],
    },
    Case {
        f: &[245, 29],
        g: &[197, 55, 16, 248, 227],
        quotient: &[0],
        remainder: &[245, 29],
        left: &[50, 108, 53],
        right: &[199, 95, 22, 236, 82, 60],
        common: &[87, 1],
    },
    Case {
        f: &[227, 127, 115, 239, 166, 71, 47],
        g: &[106],
        quotient: &[175, 193, 155, 213, 191, 183, 107],
        remainder: &[0],
        left: &[59, 48, 102, 108, 91, 68, 144, 55],
        right: &[95, 92],
        common: &[162, 1],
    },
    Case {
        f: &[39, 76, 206, 121, 2],
        g: &[0, 98],
        quotient: &[52, 207, 96, 41],
        remainder: &[39],
        left: &[181, 59, 184, 44, 186, 146],
        right: &[0, 236, 126],
        common: &[221, 1],
    },
    Case {
        f: &[76],
        g: &[227],
        quotient: &[206],
        remainder: &[0],
        left: &[138, 29],
        right: &[181, 189],
        common: &[74, 1],
    },
    Case {
        f: &[78, 103, 228, 198, 248, 59, 61, 154, 217],
        g: &[161, 138, 196, 81, 25],
        quotient: &[40, 155, 217, 19, 89],
        remainder: &[164, 250, 66, 88],
        left: &[35, 183, 4, 54, 132, 5, 85, 37, 126, 87],
        right: &[172, 190, 149, 76, 192, 32],
        common: &[63, 1],
    },
];

const SYMBOLS: [Case; 7] = [
    Case {
        f: &[96, 10, 191, 252, 156, 133],
        g: &[132, 158, 102],
        quotient: &[156, 41, 245, 74],
        remainder: &[82, 116],
        left: &[33, 75, 116, 212, 26, 42, 145],
        right: &[79, 107, 205, 224],
        common: &[142, 1],
    },
    Case {
        f: &[210, 24, 124, 13],
        g: &[210, 165, 139, 204],
        quotient: &[166],
        remainder: &[99, 142, 154],
        left: &[164, 122, 90, 112, 78],
        right: &[164, 206, 56, 29, 238],
        common: &[245, 1],
    },
    Case {
        f: &[251, 37],
        g: &[24, 158, 160, 22, 58],
        quotient: &[0],
        remainder: &[251, 37],
        left: &[68, 202, 77],
        right: &[50, 128, 228, 67, 13, 70],
        common: &[175, 1],
    },
    Case {
        f: &[11, 252, 242, 225, 139, 245, 171],
        g: &[1],
        quotient: &[11, 252, 242, 225, 139, 245, 171],
        remainder: &[0],
        left: &[10, 170, 77, 198, 237, 188, 123, 192],
        right: &[173, 44],
        common: &[101, 1],
    },
    Case {
        f: &[45, 238, 183, 29, 233],
        g: &[164, 52],
        quotient: &[242, 204, 117, 167],
        remainder: &[119],
        left: &[21, 109, 195, 46, 252, 61],
        right: &[139, 234, 252],
        common: &[191, 1],
    },
    Case {
        f: &[29],
        g: &[228],
        quotient: &[215],
        remainder: &[0],
        left: &[112, 86],
        right: &[90, 192],
        common: &[60, 1],
    },
    Case {
        f: &[205, 69, 163, 219, 122, 131, 46, 232, 36],
        g: &[157, 100, 64, 195, 59],
        quotient: &[128, 244, 48, 117, 22],
        remainder: &[134, 245, 122, 47],
        left: &[149, 52, 209, 144, 25, 124, 228, 199, 77, 68],
        right: &[203, 49, 182, 135, 125, 144],
        common: &[30, 1],
    },
];

fn divisions<F: Field>(rt: &impl Abort, field: &F, cases: &[Case]) -> Result<(), Fail>
    requires { F.made field.now }
{
    for case in cases {
        let mut quotient = [9u16; 16];
        let mut remainder = [9u16; 16];
        let (n, k) = divide(field, case.f, case.g, &mut quotient, &mut remainder)?;
        assert_eq!(rt; n, case.quotient.len());
        assert_eq!(rt; k, case.remainder.len());
        holds(rt, &quotient, case.quotient);
        holds(rt, &remainder, case.remainder);
        let mut common = [9u16; 16];
        assert_eq!(rt;
            gcd(field, case.left, case.right, &mut common)?,
            case.common.len()
        );
        holds(rt, &common, case.common);
    }
    Ok(())
}

#[test]
fn results(rt: HostRuntime) -> Result<(), Fail> {
    divisions(&rt, &PrimeField::new(2)?, &TWO)?;
    divisions(&rt, &PrimeField::new(3)?, &THREE)?;
    divisions(&rt, &PrimeField::new(251)?, &P251)?;
    divisions(&rt, &SymbolField::new(), &SYMBOLS)
}

// What division and common divisor refuse, in their order; both buffers stay.
#[test]
fn refusals(rt: HostRuntime) -> Result<(), Fail> {
    let field = PrimeField::new(5)?;
    let mut a = [9u16; 3];
    let mut b = [9u16; 2];
    refused(
        &rt,
        divide(&field, &[], &[0], &mut a, &mut b),
        Refusal(10, 2, 0),
    );
    refused(
        &rt,
        divide(&field, &[1, 5], &[], &mut a, &mut b),
        Refusal(11, 2, 1),
    );
    refused(
        &rt,
        divide(&field, &[1, 1], &[], &mut a, &mut b),
        Refusal(10, 2, 0),
    );
    refused(
        &rt,
        divide(&field, &[1, 1], &[3, 0], &mut a, &mut b),
        Refusal(12, 2, 1),
    );
    refused(
        &rt,
        divide(&field, &[1, 1], &[0], &mut a, &mut b),
        Refusal(13, 2, 0),
    );
    refused(
        &rt,
        divide(&field, &[0], &[0], &mut a, &mut b),
        Refusal(13, 2, 0),
    );
    // X^4 + X^3 + 3 X + 2 by X + 2: the quotient has 4 codes
    refused(
        &rt,
        divide(&field, &[2, 3, 0, 1, 1], &[2, 1], &mut a, &mut b),
        Refusal(14, 2, 0),
    );
    // by X^3 + 2: the quotient X + 1 has 2 codes, and the remainder X has 2
    let mut one = [9u16; 1];
    refused(
        &rt,
        divide(&field, &[2, 3, 0, 1, 1], &[2, 0, 0, 1], &mut one, &mut b),
        Refusal(14, 2, 0),
    );
    refused(
        &rt,
        divide(&field, &[2, 3, 0, 1, 1], &[2, 0, 0, 1], &mut a, &mut one),
        Refusal(14, 2, 0),
    );
    refused(&rt, gcd(&field, &[0, 0], &[1], &mut a), Refusal(12, 2, 1));
    refused(&rt, gcd(&field, &[1, 1], &[7], &mut a), Refusal(11, 2, 0));
    refused(
        &rt,
        gcd(&field, &[1, 3, 1], &[2, 1, 2], &mut b),
        Refusal(14, 2, 0),
    );
    holds(&rt, &a, &[]);
    holds(&rt, &b, &[]);
    holds(&rt, &one, &[]);
    Ok(())
}

// Buffers that are just long enough; zero polynomials.
#[test]
fn borders(rt: HostRuntime) -> Result<(), Fail> {
    let field = PrimeField::new(5)?;
    let mut a = [9u16; 2];
    let mut b = [9u16; 2];
    let (n, k) = divide(&field, &[2, 3, 0, 1, 1], &[2, 0, 0, 1], &mut a, &mut b)?;
    assert_eq!(rt; n, 2);
    assert_eq!(rt; k, 2);
    holds(&rt, &a, &[1, 1]);
    holds(&rt, &b, &[0, 1]);
    let mut c = [9u16; 3];
    assert_eq!(rt; gcd(&field, &[1, 3, 1], &[2, 1, 2], &mut c)?, 3);
    holds(&rt, &c, &[1, 3, 1]);
    let mut zero = [9u16; 1];
    assert_eq!(rt; gcd(&field, &[0], &[0], &mut zero)?, 1);
    holds(&rt, &zero, &[0]);
    let mut d = [9u16; 3];
    assert_eq!(rt; gcd(&field, &[0], &[2, 4], &mut d)?, 2);
    holds(&rt, &d, &[3, 1]);
    Ok(())
}
