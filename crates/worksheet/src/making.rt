// The making of a room and of a worksheet.
ghost use Rattle.std.specs.Prelude.{◌≡◌, IfOk};
ghost use Rattle.worksheet.specs.Sheet.{empty};
ghost use Rattle.worksheet.specs.Law.{Law};
ghost use Rattle.worksheet.specs.Meaning.{sheet_of, RoomMade, SheetMade};

use crate::parts::{Room, Worksheet};
use field::{Field, ONE, ask};
use std::alloc::{AllocError, Global};

// the most parts of a worksheet
const MOST_PARTS: usize = 127;

impl Room {
    // Room for one worksheet. No other call asks for memory.
    pub fn new(heap: Global) -> Result<Room, AllocError>
        ensures { IfOk result RoomMade }
    {
        let parts = Vec::with_capacity(heap, MOST_PARTS)?;
        Ok(Room { parts })
    }
}

// That a worksheet is well made (`SheetMade`) is a named property, and no invariant of its type: this making gives it, and each call
// asks for it and keeps it.
impl<F: Field> Worksheet<F> {
    // A worksheet with the unit one and no part. The law of splitting holds of every list of calls that follow.
    pub fn new(room: Room, field: F) -> Worksheet<F>
        requires base { F.made field }
        requires space { RoomMade room }
        ensures made { SheetMade F.Field result }
        ensures law { Law }
        ensures empty { (result.field ≡ field) × (sheet_of result ≡ empty (F.meaning field)) }
    {
        ask(&field);
        Worksheet {
            field,
            unit: ONE,
            parts: room.parts,
        }
    }
}
