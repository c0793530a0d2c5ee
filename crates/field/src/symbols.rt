// The field of order 256 of the CCSDS 131.0-B symbols, by tables of the powers of α and of exponents.
ghost use Rattle.std.specs.Prelude.{◌≡◌};
ghost use Rattle.field.specs.Field.{FieldLaws};
ghost use Rattle.field.specs.Symbol.{symbol_field, symbol_ring, symbol_extras, Tabulated};
ghost use Rattle.std.proofs.Common.{rules};

use crate::tables::{EXPONENTS, POWERS};
use crate::{Field, Ring};

// The count of symbols.
const ORDER: u16 = 256;

// The two tables: the power at each exponent, and the exponent of each code but 0.
#[derive(Clone, Copy)]
struct Tables {
    powers: &'static [u8; 510],
    exponents: &'static [u8; 256],
}

// The tables of the symbol field.
fn symbol_tables() -> Tables
    ensures { Tabulated result.powers.now result.exponents.now }
{
    Tables {
        powers: &POWERS,
        exponents: &EXPONENTS,
    }
}

// The product of two symbols: exponents add up.
fn multiply(a: u8, b: u8) -> u8
    ensures { result ≡ symbol_ring.product a b }
{
    if a == 0 || b == 0 {
        return 0;
    }
    let table = symbol_tables();
    let x = table.exponents[usize::from(a)];
    let y = table.exponents[usize::from(b)];
    table.powers[usize::from(x) + usize::from(y)]
}

// The inverse of a symbol but 0: α^255 is one.
fn invert(a: u8) -> Option<u8>
    ensures { result ≡ symbol_extras.inverse a }
{
    if a == 0 {
        return None;
    }
    let table = symbol_tables();
    let x = table.exponents[usize::from(a)];
    Some(table.powers[255 - usize::from(x)])
}

// The symbol field. It holds nothing, as there is one only.
#[derive(Clone, Copy)]
pub struct SymbolField {
    sealed: (),
}

impl SymbolField {
    // The field of order 256 of the CCSDS symbols.
    pub fn new() -> SymbolField
        ensures { ⟦<SymbolField as Ring>⟧.made result × (⟦<SymbolField as Ring>⟧.meaning result ≡ symbol_ring) × (⟦<SymbolField as Field>⟧.extras result ≡ symbol_extras) }
    {
        SymbolField { sealed: () }
    }
}

impl Ring for SymbolField {
    ghost meaning = { λ x. symbol_ring };

    ghost made = { λ x. FieldLaws symbol_field };

    ghost ring = { Prim.search rules };

    fn order(&self) -> u32 {
        u32::from(ORDER)
    }

    fn sum(&self, a: u16, b: u16) -> u16 {
        if a >= ORDER || b >= ORDER {
            return 0;
        }
        a ^ b
    }

    fn opposite(&self, a: u16) -> u16 {
        if a < ORDER { a } else { 0 }
    }

    fn product(&self, a: u16, b: u16) -> u16 {
        let (Ok(a), Ok(b)) = (u8::try_from(a), u8::try_from(b)) else {
            return 0;
        };
        u16::from(multiply(a, b))
    }
}

impl Field for SymbolField {
    ghost extras = { λ x. symbol_extras };

    fn characteristic(&self) -> u32 {
        2
    }

    fn exponent(&self) -> u32 {
        8
    }

    fn inverse(&self, a: u16) -> Option<u16> {
        let a = u8::try_from(a).ok()?;
        invert(a).map(u16::from)
    }
}
