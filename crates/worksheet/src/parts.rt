// The parts of a worksheet, and the worksheet that holds them.
use poly::MOST_CODES;

// Whether a part may still split, or is known not to.
#[derive(Clone, Copy, PartialEq, Eq, Debug)]
pub enum Mark {
    Open,
    Settled,
}

// A polynomial with its multiplicity. Its codes are the first `len` of the array, so that a part asks for no memory.
#[derive(Clone, Copy)]
pub struct Part {
    pub(crate) codes: [u16; MOST_CODES],
    pub(crate) len: usize,
    pub(crate) times: u32,
    pub(crate) mark: Mark,
}

// Memory for the parts of one worksheet.
#[derive(Drop)]
pub struct Room {
    pub(crate) parts: Vec<Part>,
}

// A unit and parts over a field: what was entered, split so far. The parts stand in their order in a `Vec` with room for all of them,
// where they are sought from the front: a map would ask for memory as they are placed.
#[derive(Drop)]
pub struct Worksheet<F> {
    pub(crate) field: F,
    pub(crate) unit: u16,
    pub(crate) parts: Vec<Part>,
}
