// What the tests expect of buffers and of refusals.
use field::FieldFault;
use poly::PolyFault;
use std::process::Abort;
use worksheet::SheetFault;

// A refusal: its number, its layer and its index.
#[derive(Clone, Copy, PartialEq, Eq, Debug)]
pub struct Refusal(pub u8, pub u8, pub usize);

impl From<FieldFault> for Refusal {
    fn from(e: FieldFault) -> Refusal {
        Refusal(e.number(), e.layer(), e.index())
    }
}

impl From<PolyFault> for Refusal {
    fn from(e: PolyFault) -> Refusal {
        Refusal(e.number(), e.layer(), e.index())
    }
}

impl From<SheetFault> for Refusal {
    fn from(e: SheetFault) -> Refusal {
        Refusal(e.number(), e.layer(), e.index())
    }
}

// The refusal of the first layer with this number: none there has an index.
pub fn of_field(number: u8) -> Refusal {
    Refusal(number, 1, 0)
}

// The refusal in an answer, if it is one.
pub fn refusal_in<T: Drop, E: Into<Refusal>>(answer: Result<T, E>) -> Option<Refusal> {
    answer.err().map(|e| e.into())
}

// An answer is this refusal.
pub fn refused<T: Drop, E: Into<Refusal>>(
    rt: &impl Abort,
    answer: Result<T, E>,
    expected: Refusal,
) {
    assert_eq!(rt; refusal_in(answer), Some(expected));
}

// Each code is this one.
pub fn all_are(rt: &impl Abort, codes: &[u16], expected: u16) {
    assert!(rt; codes.iter().all(|c| *c == expected));
}

// A buffer that was all 9 holds the expected codes at its front, and 9 behind them.
pub fn holds(rt: &impl Abort, buffer: &[u16], expected: &[u16]) {
    let (front, rest) = buffer.split_at(expected.len().min(buffer.len()));
    assert_eq!(rt; front, expected);
    all_are(rt, rest, 9);
}
