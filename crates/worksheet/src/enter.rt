// Entering a polynomial.
ghost use Rattle.std.specs.Prelude.{◌≡◌, ◌+◌, ◌^◌, ◌<◌, ◌≤◌, map, length, if◌then◌else◌, vec_len, vec_capacity, nat_eq, OnErr};
ghost use Rattle.std.specs.List.{All};
ghost use Rattle.std.specs.Result.{result_err};
ghost use Rattle.field.specs.Field.{field_of};
ghost use Rattle.field.specs.Polynomial.{degree};
ghost use Rattle.poly.specs.Faults.{most_codes};
ghost use Rattle.worksheet.specs.Sheet.{place as placed_in};
ghost use Rattle.worksheet.specs.Faults.{enter_refusal};
ghost use Rattle.worksheet.specs.Calls.{Entered, monic_of};
ghost use Rattle.worksheet.specs.Meaning.{part_of, sheet_of, Sized, SheetMade, over};

use crate::SheetFault;
use crate::parts::{Part, Worksheet};
use crate::placing::place;
use crate::reading::degree_of;
use field::{Field, scale};
use poly::{MOST_CODES, check};

// the most that the degrees of the parts, each times its multiplicity, may add up to
const MOST_DEGREE: usize = 127;

// a constant has one code
const CODES_OF_CONSTANT: usize = 1;

impl<F: Field> Worksheet<F> {
    // Enters the polynomial f, and answers its degree.
    pub fn enter(&mut self, f: &[u16]) -> Result<usize, SheetFault>
        requires { SheetMade F.Field self.old }
        ensures made { SheetMade F.Field self.new }
        ensures same { self.new.field ≡ self.old.field }
        ensures entered { Entered (over F.Field self.old) (sheet_of self.old) f.now result (sheet_of self.new) }
        ensures kept { OnErr result (self.new ≡ self.old) }
    {
        self.check_entry(f)?;
        let last = f.len() - 1;
        let unit = self.field.product(self.unit, f[last]);
        place_monic(&self.field, f, &mut self.parts);
        self.unit = unit;
        Ok(last)
    }

    // Whether f may be entered: refused with 10, 11, 12, 20 or 21 where it may not.
    fn check_entry(&self, f: &[u16]) -> Result<(), SheetFault>
        requires { SheetMade F.Field self.now }
        ensures { enter_refusal (F.meaning self.now.field) (sheet_of self.now) f.now ≡ result_err result }
    {
        check(&self.field, f)?;
        let last = f.len() - 1;
        if f[..] == [0] {
            return Err(SheetFault::ZeroEntry);
        }
        if degree_of(&self.parts) + last > MOST_DEGREE {
            return Err(SheetFault::TotalDegree);
        }
        Ok(())
    }
}

// Places f, divided by its last code, once. A constant is not placed.
fn place_monic<F: Field>(field: &F, f: &[u16], parts: &mut Vec<Part>)
    requires base { F.made field.now }
    requires sized { All Sized parts.old.items }
    requires some { 0 < length f.now }
    requires short { length f.now ≤ most_codes }
    requires counts { All (λ p. p.times + 1 < 2 ^ 32) parts.old.items }
    requires room { 1 < length f.now → vec_len parts.old < vec_capacity parts.old }
    ensures placed { map part_of parts.new.items ≡ (if nat_eq (degree f.now) 0 then map part_of parts.old.items else placed_in (monic_of (field_of F.Field field.now) f.now) 1 (map part_of parts.old.items)) }
    ensures sized { All Sized parts.new.items }
    ensures capacity { vec_capacity parts.new ≡ vec_capacity parts.old }
{
    if f.len() > CODES_OF_CONSTANT {
        let mut codes = [0u16; MOST_CODES];
        let row = &mut codes[..f.len()];
        row.copy_from_slice(f);
        make_monic(field, row);
        place(parts, row, 1);
    }
}

// Divides a row by its last code, if that has an inverse.
fn make_monic<F: Field>(field: &F, row: &mut [u16])
    requires base { F.made field.now }
    requires some { 0 < length row.old }
    ensures { row.new ≡ monic_of (field_of F.Field field.now) row.old }
{
    if let Some(a) = field.inverse(row[row.len() - 1]) {
        scale(field, a, row);
    }
}
