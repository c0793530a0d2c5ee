// The calls on polynomials: results over small rings, and every refusal at its border.
use crate::expect::{self, Refusal, all_are, holds};
use field::{Residues, SymbolField};
use poly::{PolyFault, check as check_polynomial, derivative, product, sum, value};
use std::process::Abort;
use std::test::Fail;

// operands over residues modulo n, their sum and product, the derivative of f and its value at x
struct Case {
    n: u32,
    f: &'static [u16],
    g: &'static [u16],
    sum: &'static [u16],
    product: &'static [u16],
    derivative: &'static [u16],
    x: u16,
    value: u16,
}

// Modulo 4, 6 and 256 there are zero divisors, and a product can be shorter than its factors' lengths say.
const CASES: [Case; 29] = [
    Case {
        n: 2,
        f: &[1, 0, 1, 1],
        g: &[0, 1, 1],
        sum: &[1, 1, 0, 1],
        product: &[0, 1, 1, 1, 0, 1],
        derivative: &[0, 0, 1],
        x: 0,
        value: 1,
    },
    Case {
        n: 2,
        f: &[0, 1],
        g: &[0, 1],
        sum: &[0],
        product: &[0, 0, 1],
        derivative: &[1],
        x: 1,
        value: 1,
    },
    Case {
        n: 2,
        f: &[0, 0, 0, 0, 1],
        g: &[0, 0, 0, 1, 1],
        sum: &[0, 0, 0, 1],
        product: &[0, 0, 0, 0, 0, 0, 0, 1, 1],
        derivative: &[0],
        x: 0,
        value: 0,
    },
    Case {
        n: 2,
        f: &[1],
        g: &[0, 0, 1],
        sum: &[1, 0, 1],
        product: &[0, 0, 1],
        derivative: &[0],
        x: 0,
        value: 1,
    },
    Case {
        n: 3,
        f: &[2, 2, 0, 1],
        g: &[2, 0, 2],
        sum: &[1, 2, 2, 1],
        product: &[1, 1, 1, 0, 0, 2],
        derivative: &[2],
        x: 1,
        value: 2,
    },
    Case {
        n: 3,
        f: &[1, 2],
        g: &[1, 1],
        sum: &[2],
        product: &[1, 0, 2],
        derivative: &[2],
        x: 0,
        value: 1,
    },
    Case {
        n: 3,
        f: &[2, 0, 0, 2, 2],
        g: &[1, 2, 1, 1, 1],
        sum: &[0, 2, 1],
        product: &[2, 1, 2, 1, 2, 0, 1, 1, 2],
        derivative: &[0, 0, 0, 2],
        x: 0,
        value: 2,
    },
    Case {
        n: 3,
        f: &[2],
        g: &[1, 0, 1],
        sum: &[0, 0, 1],
        product: &[2, 0, 2],
        derivative: &[0],
        x: 1,
        value: 2,
    },
    Case {
        n: 4,
        f: &[3, 0, 0, 2],
        g: &[2, 3, 1],
        sum: &[1, 3, 1, 2],
        product: &[2, 1, 3, 0, 2, 2],
        derivative: &[0, 0, 2],
        x: 0,
        value: 3,
    },
    Case {
        n: 4,
        f: &[2, 3],
        g: &[0, 3],
        sum: &[2, 2],
        product: &[0, 2, 1],
        derivative: &[3],
        x: 2,
        value: 0,
    },
    Case {
        n: 4,
        f: &[3, 2, 3, 2, 2],
        g: &[2, 1, 0, 3, 1],
        sum: &[1, 3, 3, 1, 3],
        product: &[2, 3, 0, 0, 3, 1, 1, 0, 2],
        derivative: &[2, 2, 2],
        x: 2,
        value: 3,
    },
    Case {
        n: 4,
        f: &[1],
        g: &[1, 3, 2],
        sum: &[2, 3, 2],
        product: &[1, 3, 2],
        derivative: &[0],
        x: 0,
        value: 1,
    },
    Case {
        n: 6,
        f: &[1, 3, 3, 3],
        g: &[1, 3, 3],
        sum: &[2, 0, 0, 3],
        product: &[1, 0, 3, 3, 0, 3],
        derivative: &[3, 0, 3],
        x: 5,
        value: 4,
    },
    Case {
        n: 6,
        f: &[3, 4],
        g: &[1, 1],
        sum: &[4, 5],
        product: &[3, 1, 4],
        derivative: &[4],
        x: 1,
        value: 1,
    },
    Case {
        n: 6,
        f: &[1, 1, 5, 1, 4],
        g: &[4, 1, 2, 2, 2],
        sum: &[5, 2, 1, 3],
        product: &[4, 5, 5, 1, 1, 0, 2, 4, 2],
        derivative: &[1, 4, 3, 4],
        x: 3,
        value: 4,
    },
    Case {
        n: 6,
        f: &[4],
        g: &[2, 4, 3],
        sum: &[0, 4, 3],
        product: &[2, 4],
        derivative: &[0],
        x: 1,
        value: 4,
    },
    Case {
        n: 251,
        f: &[176, 219, 131, 159],
        g: &[167, 173, 14],
        sum: &[92, 141, 145, 159],
        product: &[25, 4, 231, 74, 225, 218],
        derivative: &[219, 11, 226],
        x: 116,
        value: 131,
    },
    Case {
        n: 251,
        f: &[230, 200],
        g: &[243, 175],
        sum: &[222, 124],
        product: &[168, 247, 111],
        derivative: &[200],
        x: 204,
        value: 117,
    },
    Case {
        n: 251,
        f: &[143, 100, 101, 102, 27],
        g: &[123, 162, 102, 15, 18],
        sum: &[15, 11, 203, 117, 45],
        product: &[19, 75, 37, 89, 85, 21, 78, 233, 235],
        derivative: &[100, 202, 55, 108],
        x: 53,
        value: 165,
    },
    Case {
        n: 251,
        f: &[112],
        g: &[41, 28, 154],
        sum: &[153, 28, 154],
        product: &[74, 124, 180],
        derivative: &[0],
        x: 13,
        value: 112,
    },
    Case {
        n: 256,
        f: &[52, 0, 77, 243],
        g: &[186, 13, 224],
        sum: &[238, 13, 45, 243],
        product: &[200, 164, 114, 119, 183, 160],
        derivative: &[0, 154, 217],
        x: 106,
        value: 128,
    },
    Case {
        n: 256,
        f: &[192, 163],
        g: &[129, 155],
        sum: &[65, 62],
        product: &[192, 99, 177],
        derivative: &[163],
        x: 186,
        value: 46,
    },
    Case {
        n: 256,
        f: &[242, 62, 59, 249, 123],
        g: &[247, 159, 43, 73, 192],
        sum: &[233, 221, 102, 66, 59],
        product: &[126, 32, 21, 80, 107, 139, 234, 211, 64],
        derivative: &[62, 118, 235, 236],
        x: 175,
        value: 65,
    },
    Case {
        n: 256,
        f: &[135],
        g: &[245, 82, 53],
        sum: &[124, 82, 53],
        product: &[51, 62, 243],
        derivative: &[0],
        x: 185,
        value: 135,
    },
    Case {
        n: 4,
        f: &[1, 2],
        g: &[1, 2],
        sum: &[2],
        product: &[1],
        derivative: &[2],
        x: 3,
        value: 3,
    },
    Case {
        n: 4,
        f: &[0, 2],
        g: &[2, 0, 2],
        sum: &[2, 2, 2],
        product: &[0],
        derivative: &[2],
        x: 2,
        value: 0,
    },
    Case {
        n: 256,
        f: &[3, 16],
        g: &[5, 0, 16],
        sum: &[8, 16, 16],
        product: &[15, 80, 48],
        derivative: &[16],
        x: 16,
        value: 3,
    },
    Case {
        n: 6,
        f: &[1, 2],
        g: &[1, 3],
        sum: &[2, 5],
        product: &[1, 5],
        derivative: &[2],
        x: 5,
        value: 5,
    },
    Case {
        n: 256,
        f: &[128],
        g: &[2, 4, 128],
        sum: &[130, 4, 128],
        product: &[0],
        derivative: &[0],
        x: 255,
        value: 128,
    },
];

// The result stands at the front of a buffer that was all 9, and the rest of the buffer is still 9.
fn stands(
    rt: &impl Abort,
    res: Result<usize, PolyFault>,
    buffer: &[u16],
    expected: &[u16],
) -> Result<(), Fail> {
    assert_eq!(rt; res?, expected.len());
    holds(rt, buffer, expected);
    Ok(())
}

#[test]
fn results(rt: HostRuntime) -> Result<(), Fail> {
    for case in &CASES {
        let ring = Residues::new(case.n)?;
        let mut buffer = [9u16; 12];
        stands(
            &rt,
            sum(&ring, case.f, case.g, &mut buffer),
            &buffer,
            case.sum,
        )?;
        let mut buffer = [9u16; 12];
        stands(
            &rt,
            product(&ring, case.f, case.g, &mut buffer),
            &buffer,
            case.product,
        )?;
        let mut buffer = [9u16; 12];
        stands(
            &rt,
            derivative(&ring, case.f, &mut buffer),
            &buffer,
            case.derivative,
        )?;
        assert_eq!(rt; value(&ring, case.f, case.x)?, case.value);
    }
    Ok(())
}

// An answer is this refusal, and left a buffer of 9s as it was.
fn refused<T: Drop>(
    rt: &impl Abort,
    answer: Result<T, PolyFault>,
    buffer: &[u16],
    expected: Refusal,
) {
    all_are(rt, buffer, 9);
    expect::refused(rt, answer, expected);
}

// operands that are no polynomials over residues modulo 5, with the refusal
const OPERANDS: [(&[u16], Refusal); 9] = [
    (&[], Refusal(10, 2, 0)),
    (&[5], Refusal(11, 2, 0)),
    (&[65535], Refusal(11, 2, 0)),
    (&[1, 2, 5, 7], Refusal(11, 2, 2)),
    (&[4, 4, 4, 5], Refusal(11, 2, 3)),
    (&[0, 0], Refusal(12, 2, 1)),
    (&[1, 2, 3, 0], Refusal(12, 2, 3)),
    (&[1, 6, 0], Refusal(11, 2, 1)),
    (&[7, 0], Refusal(11, 2, 0)),
];

#[test]
fn refused_operands(rt: HostRuntime) -> Result<(), Fail> {
    let ring = Residues::new(5)?;
    let one = [1u16];
    for (f, expected) in OPERANDS {
        let mut buffer = [9u16; 4];
        refused(&rt, check_polynomial(&ring, f), &buffer, expected);
        refused(&rt, sum(&ring, f, &one, &mut buffer), &buffer, expected);
        refused(&rt, sum(&ring, &one, f, &mut buffer), &buffer, expected);
        refused(&rt, product(&ring, f, &one, &mut buffer), &buffer, expected);
        refused(&rt, product(&ring, &one, f, &mut buffer), &buffer, expected);
        refused(&rt, derivative(&ring, f, &mut buffer), &buffer, expected);
        refused(&rt, value(&ring, f, 5), &buffer, expected);
    }
    // the first operand is judged first, and an operand before a short buffer
    let mut none = [0u16; 0];
    refused(
        &rt,
        sum(&ring, &[0, 0], &[], &mut none),
        &none,
        Refusal(12, 2, 1),
    );
    refused(
        &rt,
        sum(&ring, &[1], &[1, 0], &mut none),
        &none,
        Refusal(12, 2, 1),
    );
    Ok(())
}

// 1 to 128 codes are taken, 129 are not.
#[test]
fn lengths(rt: HostRuntime) -> Result<(), Fail> {
    let ring = Residues::new(2)?;
    let codes = [1u16; 129];
    let mut buffer = [9u16; 128];
    refused(
        &rt,
        derivative(&ring, &codes, &mut buffer),
        &buffer,
        Refusal(10, 2, 0),
    );
    refused(&rt, value(&ring, &codes, 0), &buffer, Refusal(10, 2, 0));
    refused(
        &rt,
        sum(&ring, &codes, &[1], &mut buffer),
        &buffer,
        Refusal(10, 2, 0),
    );
    assert_eq!(rt; value(&ring, &codes[0..128], 1)?, 0);
    assert_eq!(rt; value(&ring, &codes[0..127], 1)?, 1);
    assert_eq!(rt; value(&ring, &codes[0..1], 0)?, 1);
    assert_eq!(rt;
        sum(&ring, &codes[0..128], &codes[0..127], &mut buffer)?,
        128
    );
    Ok(())
}

// Lengths that sum to 129 give a product, 130 do not; too long comes before a short buffer.
#[test]
fn long_products(rt: HostRuntime) -> Result<(), Fail> {
    let ring = Residues::new(2)?;
    let codes = [1u16; 128];
    let mut buffer = [9u16; 128];
    refused(
        &rt,
        product(&ring, &codes[0..65], &codes[0..65], &mut buffer),
        &buffer,
        Refusal(15, 2, 0),
    );
    refused(
        &rt,
        product(&ring, &codes, &codes[0..2], &mut buffer),
        &buffer,
        Refusal(15, 2, 0),
    );
    let mut none = [0u16; 0];
    refused(
        &rt,
        product(&ring, &codes, &codes[0..2], &mut none),
        &none,
        Refusal(15, 2, 0),
    );
    refused(
        &rt,
        product(&ring, &codes, &codes[0..1], &mut none),
        &none,
        Refusal(14, 2, 0),
    );
    assert_eq!(rt; product(&ring, &codes, &codes[0..1], &mut buffer)?, 128);
    assert_eq!(rt;
        product(&ring, &codes[0..64], &codes[0..65], &mut buffer)?,
        128
    );
    Ok(())
}

// A buffer one code too short is refused, one that is just long enough is not; what counts is the result as it is.
#[test]
fn buffers(rt: HostRuntime) -> Result<(), Fail> {
    let ring = Residues::new(4)?;
    let mut short = [9u16; 2];
    let mut exact = [9u16; 3];
    refused(
        &rt,
        sum(&ring, &[1, 2, 3], &[1], &mut short),
        &short,
        Refusal(14, 2, 0),
    );
    stands(
        &rt,
        sum(&ring, &[1, 2, 3], &[1], &mut exact),
        &exact,
        &[2, 2, 3],
    )?;
    stands(
        &rt,
        sum(&ring, &[1, 2, 3], &[1, 1, 1], &mut short),
        &short,
        &[2, 3],
    )?;
    let mut short = [9u16; 2];
    let mut exact = [9u16; 3];
    refused(
        &rt,
        product(&ring, &[1, 2], &[1, 1], &mut short),
        &short,
        Refusal(14, 2, 0),
    );
    stands(
        &rt,
        product(&ring, &[1, 2], &[1, 1], &mut exact),
        &exact,
        &[1, 3, 2],
    )?;
    stands(
        &rt,
        product(&ring, &[1, 2], &[1, 2], &mut short),
        &short,
        &[1],
    )?;
    let mut short = [9u16; 1];
    refused(
        &rt,
        derivative(&ring, &[1, 2, 3], &mut short),
        &short,
        Refusal(14, 2, 0),
    );
    stands(&rt, derivative(&ring, &[1, 2, 2], &mut short), &short, &[2])?;
    let mut none = [0u16; 0];
    refused(
        &rt,
        derivative(&ring, &[3], &mut none),
        &none,
        Refusal(14, 2, 0),
    );
    Ok(())
}

// A point that is no code is refused with 11 and index 0, after the operand.
#[test]
fn points(rt: HostRuntime) -> Result<(), Fail> {
    let field = SymbolField::new();
    assert_eq!(rt; value(&field, &[7, 2], 128)?, 128);
    assert_eq!(rt; value(&field, &[7, 2], 255)?, 126);
    refused(&rt, value(&field, &[7, 2], 256), &[], Refusal(11, 2, 0));
    refused(&rt, value(&field, &[7, 2], 65535), &[], Refusal(11, 2, 0));
    refused(&rt, value(&field, &[7, 0], 256), &[], Refusal(12, 2, 1));
    Ok(())
}
