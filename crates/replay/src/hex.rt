// Bytes as hexadecimal text.
ghost use Rattle.std.specs.Prelude.{◌≡◌, ◌⊎◌, MatchResult, Some, None};
ghost use Rattle.replay.specs.Hex.{pair_value, text_value};
ghost use Rattle.replay.specs.declared.hex.HexFault.TheVariants.{NoMemory, NotHexadecimal};

use std::alloc::{AllocError, AllocFailed, Global};
use std::error::Error;
use std::fmt;

// the base of the digits
const RADIX: u32 = 16;

// Why a text gives no bytes.
#[derive(Debug, Drop)]
pub enum HexFault {
    NotHexadecimal,
    NoMemory,
}

impl<T: Drop> From<AllocFailed<T>> for HexFault {
    ghost from_gives = { λ _ r. r ≡ NoMemory };

    fn from(_e: AllocFailed<T>) -> HexFault {
        HexFault::NoMemory
    }
}

impl fmt::Display for HexFault {
    fn fmt<W: fmt::Write>(&self, f: &mut fmt::Formatter<W>) -> fmt::Result {
        match self {
            HexFault::NotHexadecimal => f.write_str("a line is not hexadecimal"),
            HexFault::NoMemory => write!(f, "{AllocError}"),
        }
    }
}

impl Error for HexFault {}

// The byte of two digits, the high one first.
fn byte_of(pair: &[u8]) -> Option<u8>
    ensures { result ≡ pair_value pair.now }
{
    let [high, low] = pair else {
        return None;
    };
    let high = char::from(*high).to_digit(RADIX)?;
    let low = char::from(*low).to_digit(RADIX)?;
    Some((RADIX * high + low) as u8)
}

// The bytes of a text of pairs of digits.
pub fn bytes_of(heap: Global, text: &str) -> Result<Vec<u8>, HexFault>
    ensures { MatchResult result (λ v. text_value text.now ≡ Some v.items) (λ e. (e ≡ NoMemory) ⊎ ((e ≡ NotHexadecimal) × (text_value text.now ≡ None))) }
{
    let mut bytes = Vec::new(heap);
    for pair in text.as_bytes().chunks(2) {
        let b = byte_of(pair).ok_or(HexFault::NotHexadecimal)?;
        bytes.push(b)?;
    }
    Ok(bytes)
}
