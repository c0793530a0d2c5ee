// Taking and reading parts.
ghost use Rattle.std.specs.Prelude.{◌≡◌, ◌<◌, map, vec_len, vec_capacity, OnErr};
ghost use Rattle.std.specs.List.{All};
ghost use Rattle.worksheet.specs.Sheet.{part_at, taken_at};
ghost use Rattle.worksheet.specs.Places.{some_open};
ghost use Rattle.worksheet.specs.Calls.{Read, Taken};
ghost use Rattle.worksheet.specs.Meaning.{part_of, sheet_of, Sized, SheetMade};

use crate::SheetFault;
use crate::parts::{Mark, Part, Worksheet};
use field::Field;

impl<F: Field> Worksheet<F> {
    // Reads the part with this number into a buffer, and answers its degree, its multiplicity and its mark.
    pub fn read(&self, number: usize, out: &mut [u16]) -> Result<(usize, u32, Mark), SheetFault>
        requires { SheetMade F.Field self.now }
        ensures { Read (sheet_of self.now) number out.old result out.new }
    {
        let part = self.parts.get(number).ok_or(SheetFault::NoPart)?;
        let codes = part.codes();
        if out.len() < codes.len() {
            return Err(SheetFault::ShortBuffer);
        }
        out[..codes.len()].copy_from_slice(codes);
        Ok((part.degree(), part.times, part.mark))
    }

    // Takes one of the settled part with this number into a buffer, and answers its degree.
    pub fn take(&mut self, number: usize, out: &mut [u16]) -> Result<usize, SheetFault>
        requires { SheetMade F.Field self.old }
        ensures made { SheetMade F.Field self.new }
        ensures same { self.new.field ≡ self.old.field }
        ensures taken { Taken (sheet_of self.old) number out.old result (sheet_of self.new) out.new }
        ensures kept { OnErr result (self.new ≡ self.old) }
    {
        if open_at(&self.parts, number) {
            return Err(SheetFault::OpenPart);
        }
        let (degree, _, _) = self.read(number, out)?;
        take_one(&mut self.parts, number);
        Ok(degree)
    }
}

// Whether there is an open part at this place.
fn open_at(parts: &[Part], number: usize) -> bool
    ensures { result ≡ some_open (part_at (map part_of parts.now) number) }
{
    parts.get(number).is_some_and(|part| part.mark.is_open())
}

// Takes one of the part at this place: the last of it takes the part away.
fn take_one(parts: &mut Vec<Part>, number: usize)
    requires sized { All Sized parts.old.items }
    requires within { number < vec_len parts.old }
    ensures lowered { map part_of parts.new.items ≡ taken_at (map part_of parts.old.items) number }
    ensures sized { All Sized parts.new.items }
    ensures capacity { vec_capacity parts.new ≡ vec_capacity parts.old }
{
    if parts[number].times > 1 {
        parts[number].times -= 1;
    } else {
        parts.remove(number);
    }
}
