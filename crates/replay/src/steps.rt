// The polynomials of a job, entered into a worksheet, and its steps.
ghost use Rattle.worksheet.specs.Meaning.{SheetMade};

use field::Field;
use poly::MOST_CODES;
use worksheet::{MOST_SCRATCH, MOST_STEPS, Room, Worksheet};

// Enters the polynomials in the bytes, and prints the answers of the steps until no part is open.
pub fn show_steps<F: Field>(
    rt: &(impl Print + AllocGlobal),
    field: F,
    bytes: &[u8],
) -> anyhow::Result<()>
    requires { F.made field }
{
    let mut sheet = Worksheet::new(Room::new(rt.alloc())?, field);
    if enter_all(&mut sheet, bytes).is_none() {
        return Ok(());
    }
    print!(rt; "answers")?;
    step_all(rt, &mut sheet)?;
    println!(rt)?;
    Ok(())
}

// Enters the polynomials in the bytes; none where that is not all that the bytes have.
fn enter_all<F: Field>(sheet: &mut Worksheet<F>, bytes: &[u8]) -> Option<()>
    requires { SheetMade F.Field sheet.old }
    ensures { SheetMade F.Field sheet.new }
{
    let (count, mut rest) = bytes.split_first()?;
    for _ in 0..*count {
        rest = enter_first(sheet, rest)?;
    }
    rest.is_empty().then_some(())
}

// Enters the first polynomial in the bytes, and answers the bytes behind it.
fn enter_first<'a, F: Field>(sheet: &mut Worksheet<F>, bytes: &'a [u8]) -> Option<&'a [u8]>
    requires { SheetMade F.Field sheet.old }
    ensures { SheetMade F.Field sheet.new }
{
    let (length, rest) = bytes.split_first()?;
    let n = usize::from(*length);
    let (pairs, behind) = rest.split_at_checked(2 * n)?;
    let mut codes = [0u16; MOST_CODES];
    let row = codes.get_mut(..n)?;
    read_codes(pairs, row);
    let _ = sheet.enter(row).ok()?;
    Some(behind)
}

// Writes the numbers in pairs of bytes, the low one first, from index 0 on.
fn read_codes(pairs: &[u8], row: &mut [u16]) {
    for (code, pair) in row.iter_mut().zip(pairs.chunks_exact(2)) {
        *code = u16::from_le_bytes([pair[0], pair[1]]);
    }
}

// Prints the answers of the steps until no part is open.
fn step_all<F: Field>(rt: &impl Print, sheet: &mut Worksheet<F>) -> anyhow::Result<()>
    requires { SheetMade F.Field sheet.old }
{
    let mut scratch = [0u16; MOST_SCRATCH];
    for _ in 0..MOST_STEPS {
        let Ok((kind, d, e)) = sheet.step(&mut scratch) else {
            break;
        };
        let number = kind.number();
        print!(rt; " {number},{d},{e}")?;
    }
    Ok(())
}
