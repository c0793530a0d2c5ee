// Quotients of residues, of rings that are no fields too, and of quotients; the refusals of their making.
use crate::expect::{of_field, refusal_in};
use field::{Quotient, Residues, Ring};
use poly::{product, value};
use std::process::Abort;
use std::test::Fail;

// in the quotient of the residues modulo n by t^k plus the polynomial of m
struct Case {
    n: u32,
    k: u32,
    m: u32,
    a: u16,
    b: u16,
    sum: u16,
    opposite: u16,
    product: u16,
}

const CASES: [Case; 32] = [
    Case {
        n: 4,
        k: 2,
        m: 1,
        a: 13,
        b: 10,
        sum: 7,
        opposite: 7,
        product: 0,
    },
    Case {
        n: 4,
        k: 2,
        m: 1,
        a: 8,
        b: 14,
        sum: 6,
        opposite: 8,
        product: 2,
    },
    Case {
        n: 4,
        k: 2,
        m: 1,
        a: 13,
        b: 10,
        sum: 7,
        opposite: 7,
        product: 0,
    },
    Case {
        n: 4,
        k: 2,
        m: 1,
        a: 15,
        b: 15,
        sum: 10,
        opposite: 5,
        product: 8,
    },
    Case {
        n: 4,
        k: 3,
        m: 27,
        a: 28,
        b: 33,
        sum: 61,
        opposite: 52,
        product: 20,
    },
    Case {
        n: 4,
        k: 3,
        m: 27,
        a: 21,
        b: 14,
        sum: 19,
        opposite: 63,
        product: 45,
    },
    Case {
        n: 4,
        k: 3,
        m: 27,
        a: 13,
        b: 39,
        sum: 32,
        opposite: 7,
        product: 57,
    },
    Case {
        n: 4,
        k: 3,
        m: 27,
        a: 63,
        b: 63,
        sum: 42,
        opposite: 21,
        product: 6,
    },
    Case {
        n: 6,
        k: 2,
        m: 35,
        a: 27,
        b: 12,
        sum: 3,
        opposite: 15,
        product: 14,
    },
    Case {
        n: 6,
        k: 2,
        m: 35,
        a: 5,
        b: 32,
        sum: 31,
        opposite: 1,
        product: 10,
    },
    Case {
        n: 6,
        k: 2,
        m: 35,
        a: 6,
        b: 21,
        sum: 27,
        opposite: 30,
        product: 3,
    },
    Case {
        n: 6,
        k: 2,
        m: 35,
        a: 35,
        b: 35,
        sum: 28,
        opposite: 7,
        product: 20,
    },
    Case {
        n: 6,
        k: 3,
        m: 100,
        a: 122,
        b: 90,
        sum: 212,
        opposite: 136,
        product: 86,
    },
    Case {
        n: 6,
        k: 3,
        m: 100,
        a: 36,
        b: 176,
        sum: 212,
        opposite: 180,
        product: 156,
    },
    Case {
        n: 6,
        k: 3,
        m: 100,
        a: 111,
        b: 123,
        sum: 12,
        opposite: 111,
        product: 3,
    },
    Case {
        n: 6,
        k: 3,
        m: 100,
        a: 215,
        b: 215,
        sum: 172,
        opposite: 43,
        product: 205,
    },
    Case {
        n: 2,
        k: 2,
        m: 3,
        a: 2,
        b: 2,
        sum: 0,
        opposite: 2,
        product: 3,
    },
    Case {
        n: 2,
        k: 2,
        m: 3,
        a: 2,
        b: 2,
        sum: 0,
        opposite: 2,
        product: 3,
    },
    Case {
        n: 2,
        k: 2,
        m: 3,
        a: 0,
        b: 2,
        sum: 2,
        opposite: 0,
        product: 0,
    },
    Case {
        n: 2,
        k: 2,
        m: 3,
        a: 3,
        b: 3,
        sum: 0,
        opposite: 3,
        product: 2,
    },
    Case {
        n: 2,
        k: 2,
        m: 1,
        a: 1,
        b: 2,
        sum: 3,
        opposite: 1,
        product: 2,
    },
    Case {
        n: 2,
        k: 2,
        m: 1,
        a: 1,
        b: 2,
        sum: 3,
        opposite: 1,
        product: 2,
    },
    Case {
        n: 2,
        k: 2,
        m: 1,
        a: 3,
        b: 3,
        sum: 0,
        opposite: 3,
        product: 0,
    },
    Case {
        n: 2,
        k: 2,
        m: 1,
        a: 3,
        b: 3,
        sum: 0,
        opposite: 3,
        product: 0,
    },
    Case {
        n: 256,
        k: 2,
        m: 777,
        a: 9806,
        b: 22047,
        sum: 31853,
        opposite: 55986,
        product: 33422,
    },
    Case {
        n: 256,
        k: 2,
        m: 777,
        a: 19461,
        b: 18734,
        sum: 38195,
        opposite: 46331,
        product: 4570,
    },
    Case {
        n: 256,
        k: 2,
        m: 777,
        a: 62205,
        b: 18653,
        sum: 15066,
        opposite: 3587,
        product: 58073,
    },
    Case {
        n: 256,
        k: 2,
        m: 777,
        a: 65535,
        b: 65535,
        sum: 65278,
        opposite: 257,
        product: 65528,
    },
    Case {
        n: 2,
        k: 16,
        m: 43,
        a: 23648,
        b: 22585,
        sum: 1113,
        opposite: 23648,
        product: 17101,
    },
    Case {
        n: 2,
        k: 16,
        m: 43,
        a: 60353,
        b: 17466,
        sum: 45051,
        opposite: 60353,
        product: 41358,
    },
    Case {
        n: 2,
        k: 16,
        m: 43,
        a: 46624,
        b: 51018,
        sum: 29034,
        opposite: 46624,
        product: 12722,
    },
    Case {
        n: 2,
        k: 16,
        m: 43,
        a: 65535,
        b: 65535,
        sum: 0,
        opposite: 65535,
        product: 44026,
    },
];

#[test]
fn results(rt: HostRuntime) -> Result<(), Fail> {
    for case in &CASES {
        let ring = Quotient::new(Residues::new(case.n)?, case.k, case.m)?;
        assert_eq!(rt; ring.sum(case.a, case.b), case.sum);
        assert_eq!(rt; ring.opposite(case.a), case.opposite);
        assert_eq!(rt; ring.product(case.a, case.b), case.product);
        assert_eq!(rt; ring.product(case.b, case.a), case.product);
    }
    Ok(())
}

// a quotient of a quotient: a, b, sum, product
const OVER_NINE: [(u16, u16, u16, u16); 4] = [
    (61, 43, 14, 55),
    (1, 63, 64, 63),
    (47, 24, 44, 10),
    (17, 61, 66, 4),
];

const OVER_SIXTEEN: [(u16, u16, u16, u16); 4] = [
    (2522, 1327, 3829, 1952),
    (1696, 782, 1454, 3802),
    (3778, 4068, 2470, 1002),
    (2833, 1099, 3928, 513),
];

fn answers<R: Ring>(rt: &impl Abort, ring: &R, cases: &[(u16, u16, u16, u16)])
    requires { R.made ring.now }
{
    for (a, b, sum, product) in cases {
        assert_eq!(rt; ring.sum(*a, *b), *sum);
        assert_eq!(rt; ring.product(*a, *b), *product);
    }
}

#[test]
fn quotients_of_quotients(rt: HostRuntime) -> Result<(), Fail> {
    let nine = Quotient::new(Residues::new(3)?, 2, 4)?;
    let ring = Quotient::new(nine, 2, 11)?;
    assert_eq!(rt; ring.order(), 81);
    answers(&rt, &ring, &OVER_NINE);
    let sixteen = Quotient::new(Residues::new(4)?, 2, 7)?;
    let ring = Quotient::new(sixteen, 3, 1000)?;
    assert_eq!(rt; ring.order(), 4096);
    answers(&rt, &ring, &OVER_SIXTEEN);
    assert_eq!(rt; ring.sum(4096, 1), 0);
    assert_eq!(rt; ring.product(1, 4096), 0);
    assert_eq!(rt; ring.opposite(65535), 0);
    Ok(())
}

// modulus of the residues, k, m, the number of the refusal
const MAKINGS: [(u32, u32, u32, Option<u8>); 18] = [
    (2, 0, 0, Some(3)),
    (2, 1, 0, Some(3)),
    (2, 2, 0, None),
    (2, 2, 3, None),
    (2, 2, 4, Some(5)),
    (2, 16, 65535, None),
    (2, 16, 65536, Some(5)),
    (2, 17, 0, Some(3)),
    (2, 4294967295, 4294967295, Some(3)),
    (3, 2, 8, None),
    (3, 2, 9, Some(5)),
    (3, 10, 59048, None),
    (3, 10, 59049, Some(5)),
    (3, 11, 0, Some(4)),
    (3, 17, 0, Some(3)),
    (256, 2, 65535, None),
    (256, 2, 65536, Some(5)),
    (256, 16, 0, Some(4)),
];

#[test]
fn makings(rt: HostRuntime) -> Result<(), Fail> {
    for (n, k, m, number) in MAKINGS {
        let made = Quotient::new(Residues::new(n)?, k, m);
        assert_eq!(rt; refusal_in(made), number.map(of_field));
    }
    Ok(())
}

// Over order 4 with m = 3, X^2 + X + 1 is the product of the polynomials with the codes 2 1 and 3 1, and X^2 + 2 is the square of 3 1.
#[test]
fn order_four(rt: HostRuntime) -> Result<(), Fail> {
    let four = Quotient::new(Residues::new(2)?, 2, 3)?;
    assert_eq!(rt; four.product(2, 2), 3);
    let mut codes = [9u16; 4];
    assert_eq!(rt; product(&four, &[2, 1], &[3, 1], &mut codes)?, 3);
    assert!(rt; codes == [1, 1, 1, 9]);
    assert_eq!(rt; product(&four, &[3, 1], &[3, 1], &mut codes)?, 3);
    assert!(rt; codes == [2, 0, 1, 9]);
    assert_eq!(rt; value(&four, &[1, 1, 1], 1)?, 1);
    assert_eq!(rt; value(&four, &[1, 1, 1], 2)?, 0);
    assert_eq!(rt; value(&four, &[1, 1, 1], 3)?, 0);
    Ok(())
}
