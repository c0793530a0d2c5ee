// The makings of rings and fields, and what they answer.
use crate::expect::{of_field, refusal_in};
use field::{Field, PrimeField, Residues, Ring, SymbolField};
use std::test::Fail;

// n, then the numbers of the refusals of residues and of a prime field
const MAKINGS: [(u32, Option<u8>, Option<u8>); 16] = [
    (0, Some(1), Some(1)),
    (1, Some(1), Some(1)),
    (2, None, None),
    (3, None, None),
    (4, None, Some(2)),
    (9, None, Some(2)),
    (91, None, Some(2)),
    (127, None, None),
    (249, None, Some(2)),
    (250, None, Some(2)),
    (251, None, None),
    (255, None, Some(2)),
    (256, None, Some(2)),
    (257, Some(1), Some(1)),
    (65538, Some(1), Some(1)),
    (4294967295, Some(1), Some(1)),
];

#[test]
fn makings(rt: HostRuntime) {
    for (n, residues, prime) in MAKINGS {
        assert_eq!(rt; refusal_in(Residues::new(n)), residues.map(of_field));
        assert_eq!(rt; refusal_in(PrimeField::new(n)), prime.map(of_field));
    }
}

// The 54 primes are taken, and no other n from 2 to 256.
#[test]
fn primes_are_counted(rt: HostRuntime) {
    let count = (2..257u32).filter(|n| PrimeField::new(*n).is_ok()).count();
    assert_eq!(rt; count, 54);
}

// modulo n: a, b, then sum, opposite of a, product
const RESIDUES: [(u32, u16, u16, u16, u16, u16); 10] = [
    (2, 1, 1, 0, 1, 1),
    (4, 2, 2, 0, 2, 0),
    (4, 3, 3, 2, 1, 1),
    (6, 2, 3, 5, 4, 0),
    (256, 16, 16, 32, 240, 0),
    (256, 255, 255, 254, 1, 1),
    (251, 250, 250, 249, 1, 1),
    (251, 0, 5, 5, 0, 0),
    (5, 5, 1, 0, 0, 0),
    (5, 1, 65535, 0, 4, 0),
];

#[test]
fn residues(rt: HostRuntime) -> Result<(), Fail> {
    for (n, a, b, sum, opposite, product) in RESIDUES {
        let ring = Residues::new(n)?;
        assert_eq!(rt; ring.order(), n);
        assert_eq!(rt; ring.sum(a, b), sum);
        assert_eq!(rt; ring.opposite(a), opposite);
        assert_eq!(rt; ring.product(a, b), product);
    }
    Ok(())
}

// a prime, a code, its inverse
const INVERSES: [(u32, u16, Option<u16>); 10] = [
    (2, 1, Some(1)),
    (2, 0, None),
    (2, 2, None),
    (3, 2, Some(2)),
    (5, 2, Some(3)),
    (7, 3, Some(5)),
    (251, 2, Some(126)),
    (251, 250, Some(250)),
    (251, 251, None),
    (251, 65535, None),
];

#[test]
fn prime_fields(rt: HostRuntime) -> Result<(), Fail> {
    for (p, a, inverse) in INVERSES {
        let field = PrimeField::new(p)?;
        assert_eq!(rt; field.order(), p);
        assert_eq!(rt; field.characteristic(), p);
        assert_eq!(rt; field.exponent(), 1);
        assert_eq!(rt; field.inverse(a), inverse);
    }
    Ok(())
}

// products of symbols
const PRODUCTS: [(u16, u16, u16); 34] = [
    (2, 128, 135),
    (255, 255, 224),
    (1, 255, 255),
    (0, 77, 0),
    (77, 133, 95),
    (51, 167, 146),
    (86, 13, 176),
    (210, 208, 7),
    (38, 52, 36),
    (64, 163, 80),
    (242, 230, 97),
    (210, 106, 227),
    (102, 162, 218),
    (171, 168, 208),
    (218, 47, 125),
    (251, 207, 31),
    (41, 105, 176),
    (124, 17, 39),
    (103, 48, 180),
    (42, 97, 220),
    (129, 145, 198),
    (156, 131, 232),
    (83, 60, 188),
    (11, 136, 202),
    (119, 112, 24),
    (121, 28, 174),
    (6, 153, 88),
    (143, 70, 223),
    (171, 229, 205),
    (78, 140, 224),
    (221, 80, 84),
    (84, 207, 212),
    (256, 1, 0),
    (1, 65535, 0),
];

// inverses of symbols
const SYMBOL_INVERSES: [(u16, Option<u16>); 16] = [
    (0, None),
    (1, Some(1)),
    (2, Some(195)),
    (3, Some(130)),
    (128, Some(238)),
    (135, Some(119)),
    (195, Some(2)),
    (254, Some(146)),
    (255, Some(79)),
    (238, Some(128)),
    (181, Some(253)),
    (221, Some(31)),
    (177, Some(203)),
    (33, Some(75)),
    (200, Some(205)),
    (256, None),
];

#[test]
fn symbols(rt: HostRuntime) {
    let field = SymbolField::new();
    assert_eq!(rt; field.order(), 256);
    assert_eq!(rt; field.characteristic(), 2);
    assert_eq!(rt; field.exponent(), 8);
    assert_eq!(rt; field.sum(200, 100), 172);
    assert_eq!(rt; field.sum(200, 300), 0);
    assert_eq!(rt; field.opposite(77), 77);
    assert_eq!(rt; field.opposite(256), 0);
    for (a, b, product) in PRODUCTS {
        assert_eq!(rt; field.product(a, b), product);
        assert_eq!(rt; field.product(b, a), product);
    }
    for (a, inverse) in SYMBOL_INVERSES {
        assert_eq!(rt; field.inverse(a), inverse);
    }
}
