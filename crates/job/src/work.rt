// The working of a job: the field is made level by level, the polynomials are entered into a worksheet over it, and this is stepped
// until no part is open.
ghost use Rattle.std.specs.Prelude.{◌≡◌, ℕ, suc, ◌≤◌, replicate, IfOk};
ghost use Rattle.field.specs.Field.{field_of};
ghost use Rattle.field.specs.Quotient.{quotient_ring, extension_extras, extension_field};
ghost use Rattle.worksheet.specs.Meaning.{sheet_of, RoomMade, SheetMade};
ghost use Rattle.job.specs.Reading.{at_end};
ghost use Rattle.job.specs.Reader.{bytes_of, levels_left, next_height, next_number, polynomials_left};
ghost use Rattle.job.specs.Outcome.{answer_of};
ghost use Rattle.job.specs.Job.{most_scratch, Settles, Works, Climbs, Gives, OneOutcome};
ghost use Rattle.job.specs.Promise.{ListingsSplit};
ghost use Rattle.job.specs.Leading.{from_field, Leads};

use crate::reader::{Base, Reader};
use crate::{JobFault, Listing};
use extension::Extension;
use field::{Field, FieldFault, PrimeField, Ring, SymbolField};
use poly::MOST_CODES;
use worksheet::{MOST_SCRATCH, Room, SheetFault, Worksheet};

// the most levels of a field
const MOST_LEVELS: u8 = 3;

// the most polynomials of a job
const MOST_POLYNOMIALS: u8 = 127;

// The most bytes of a job: a count, a prime field and two extensions, a count, and 127 polynomials of 1 + 2 * 128 bytes
pub const MOST_JOB_BYTES: usize = 32651;

// The listing of a job, or why it is refused. There is one answer only, and a listing is the only splitting of the job's polynomials.
pub fn run(room: Room, bytes: &[u8]) -> Result<Listing, JobFault>
    requires { RoomMade room }
    ensures gives { Gives bytes.now (answer_of result) }
    ensures once { OneOutcome }
    ensures splits { ListingsSplit }
{
    start(room, bytes)
}

// The answer, from the first byte on.
fn start(room: Room, bytes: &[u8]) -> Result<Listing, JobFault>
    requires { RoomMade room }
    ensures gives { Gives bytes.now (answer_of result) }
{
    let mut reader = Reader::new(bytes);
    let more = reader.judged(1, MOST_LEVELS)? - 1;
    let at = reader.at;
    match reader.base()? {
        Base::Prime(p) => {
            let level = at_field(PrimeField::new(u32::from(p)));
            let base = level.map_err(|fault| JobFault::Record(at, fault))?;
            climb(reader, base, more, room)
        }
        Base::Symbols => climb(reader, SymbolField::new(), more, room),
    }
}

// The listing over a field with some more levels, at most two.
fn climb<F: Field>(mut reader: Reader, base: F, more: u8, room: Room) -> Result<Listing, JobFault>
    requires made { F.made base }
    requires few { more ≤ 2 }
    requires space { RoomMade room }
    ensures { Climbs (field_of F.Field base) (levels_left reader.entry more) (answer_of result) }
{
    // by hand: each level has a type of its own, so no loop can hold it
    if more == 0 {
        return work(reader, base, room);
    }
    let first = extend(&mut reader, base)?;
    if more == 1 {
        return work(reader, first, room);
    }
    let second = extend(&mut reader, first)?;
    work(reader, second, room)
}

// The next level on a field.
fn extend<F: Field>(reader: &mut Reader, base: F) -> Result<Extension<F>, JobFault>
    requires made { F.made base }
    ensures leads { (n : ℕ) → Leads (Climbs (field_of F.Field base) (levels_left reader.old (suc n))) (Climbs (extension_field (field_of F.Field base) (next_height reader.old) (next_number reader.old)) (levels_left reader.new n)) result }
    ensures makes { IfOk result (λ x. ⟦<Extension<F> as Ring>⟧.made x × (⟦<Extension<F> as Ring>⟧.meaning x ≡ quotient_ring (F.meaning base) (next_height reader.old) (next_number reader.old)) × (⟦<Extension<F> as Field>⟧.extras x ≡ extension_extras (field_of F.Field base) (next_height reader.old) (next_number reader.old))) }
{
    let at = reader.at;
    let (k, m) = reader.extension()?;
    let level = at_field(Extension::new(base, u32::from(k), u32::from(m)));
    level.map_err(|fault| JobFault::Record(at, fault))
}

// What is made of a level, its refusal as one of the worksheet.
fn at_field<T>(level: Result<T, FieldFault>) -> Result<T, SheetFault>
    ensures { result ≡ from_field level }
{
    Ok(level?)
}

// The listing of the polynomials over a field.
fn work<F: Field>(mut reader: Reader, field: F, room: Room) -> Result<Listing, JobFault>
    requires made { F.made field }
    requires space { RoomMade room }
    ensures { Climbs (field_of F.Field field) (levels_left reader.entry 0) (answer_of result) }
{
    let count = reader.judged(0, MOST_POLYNOMIALS)?;
    let mut sheet = Worksheet::new(room, field);
    enter_all(&mut reader, &mut sheet, count)?;
    reader.finish()?;
    let steps = settle(&mut sheet);
    let order = sheet.order();
    let unit = sheet.unit();
    Ok(Listing {
        order,
        unit,
        steps,
        parts: sheet.into_parts(),
    })
}

// Enters so many polynomials.
fn enter_all<F: Field>(
    reader: &mut Reader,
    sheet: &mut Worksheet<F>,
    count: u8,
) -> Result<(), JobFault>
    requires made { SheetMade F.Field sheet.old }
    ensures leads { Leads (Works (field_of F.Field sheet.old.field) (sheet_of sheet.old) (polynomials_left reader.old count)) (Works (field_of F.Field sheet.old.field) (sheet_of sheet.new) (at_end (bytes_of reader.new) reader.new.at)) result }
    ensures made { SheetMade F.Field sheet.new }
    ensures same { sheet.new.field ≡ sheet.old.field }
{
    for _ in 0..count {
        enter_next(reader, sheet)?;
    }
    Ok(())
}

// Enters the next polynomial.
fn enter_next<F: Field>(reader: &mut Reader, sheet: &mut Worksheet<F>) -> Result<(), JobFault>
    requires made { SheetMade F.Field sheet.old }
    ensures leads { (n : ℕ) → Leads (Works (field_of F.Field sheet.old.field) (sheet_of sheet.old) (polynomials_left reader.old (suc n))) (Works (field_of F.Field sheet.old.field) (sheet_of sheet.new) (polynomials_left reader.new n)) result }
    ensures made { SheetMade F.Field sheet.new }
    ensures same { sheet.new.field ≡ sheet.old.field }
{
    let at = reader.at;
    let mut codes = [0u16; MOST_CODES];
    let n = reader.polynomial(&mut codes)?;
    let _ = sheet
        .enter(&codes[..n])
        .map_err(|fault| JobFault::Record(at, fault))?;
    Ok(())
}

// Steps until no part is open, and counts the steps.
fn settle<F: Field>(sheet: &mut Worksheet<F>) -> u32
    requires { SheetMade F.Field sheet.old }
    ensures settles { Settles (field_of F.Field sheet.old.field) (sheet_of sheet.old) (replicate most_scratch 0) result (sheet_of sheet.new) }
    ensures made { SheetMade F.Field sheet.new }
    ensures same { sheet.new.field ≡ sheet.old.field }
{
    let mut scratch = [0u16; MOST_SCRATCH];
    // counted by hand: no iterator holds the worksheet and the scratch from call to call
    let mut steps = 0;
    while sheet.step(&mut scratch).is_ok() {
        steps += 1;
    }
    steps
}
