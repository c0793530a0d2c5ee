// One step: the first open part is split, or settled.
ghost use Rattle.std.specs.Prelude.{◌≡◌, ◌*◌, ◌<◌, ◌≤◌, map, length, Some, None, vec_len, vec_capacity, MatchOption, slice_set, OnErr};
ghost use Rattle.std.specs.List.{All, remove};
ghost use Rattle.poly.specs.Faults.{most_codes};
ghost use Rattle.split.specs.Kinds.{numbered};
ghost use Rattle.worksheet.specs.Sheet.{PartMeaning, most_degree, part_at, next_open, place as placed_in, settled as settled_part};
ghost use Rattle.worksheet.specs.Places.{Chosen};
ghost use Rattle.worksheet.specs.Calls.{Replaces, Stepped, told};
ghost use Rattle.worksheet.specs.Meaning.{part_of, sheet_of, Sized, SheetMade, over};

use crate::SheetFault;
use crate::parts::{Mark, Part, Worksheet};
use crate::placing::place;
use field::Field;
use poly::MOST_CODES;
use split::{Kind, split};

impl<F: Field> Worksheet<F> {
    // Splits or settles the first open part, and answers the kind with two degrees.
    pub fn step(&mut self, scratch: &mut [u16]) -> Result<(Kind, usize, usize), SheetFault>
        requires { SheetMade F.Field self.old }
        ensures made { SheetMade F.Field self.new }
        ensures same { self.new.field ≡ self.old.field }
        ensures stepped { Stepped (over F.Field self.old) (sheet_of self.old) scratch.old (told result) (sheet_of self.new) scratch.new }
        ensures kept { OnErr result (self.new ≡ self.old) }
    {
        let Some(number) = first_open(&self.parts) else {
            return Err(SheetFault::NoOpenPart);
        };
        let mut first = [0u16; MOST_CODES];
        let mut second = [0u16; MOST_CODES];
        let Some(told) = split(
            &self.field,
            self.parts[number].codes(),
            scratch,
            &mut first,
            &mut second,
        ) else {
            return Err(SheetFault::ShortScratch);
        };
        self.replace(number, told, &first, &second);
        Ok(told)
    }

    // Puts what the first open part was split into in its place.
    fn replace(&mut self, number: usize, told: (Kind, usize, usize), first: &[u16], second: &[u16])
        requires made { SheetMade F.Field self.old }
        requires chosen { Chosen (over F.Field self.old) (sheet_of self.old).parts number (numbered told) first.now second.now }
        ensures replaced { Replaces (over F.Field self.old) (sheet_of self.old) (numbered told) (sheet_of self.new) }
        ensures sized { All Sized self.new.parts.items }
        ensures capacity { vec_capacity self.new.parts ≡ vec_capacity self.old.parts }
        ensures same { self.new.field ≡ self.old.field }
    {
        let (kind, d, e) = told;
        match kind {
            Kind::Root => {
                let p = self.field.characteristic();
                put_root(&mut self.parts, number, p, &first[0..d + 1]);
            }
            Kind::Repeated | Kind::Shifted => {
                put_pieces(&mut self.parts, number, &first[0..d + 1], &second[0..e + 1]);
            }
            Kind::Whole => settle_at(&mut self.parts, number),
        }
    }
}

// The place of the first open part, if there is one.
fn first_open(parts: &[Part]) -> Option<usize>
    ensures { MatchOption result (next_open (map part_of parts.now) ≡ None) (λ i. (i < length parts.now) × (part_at (map part_of parts.now) i ≡ next_open (map part_of parts.now))) }
{
    parts.iter().position(|part| part.mark.is_open())
}

// Settles the part at this place.
fn settle_at(parts: &mut Vec<Part>, number: usize)
    requires sized { All Sized parts.old.items }
    requires within { number < vec_len parts.old }
    ensures settled { (q : PartMeaning) → part_at (map part_of parts.old.items) number ≡ Some q → map part_of parts.new.items ≡ slice_set (map part_of parts.old.items) number (settled_part q) }
    ensures sized { All Sized parts.new.items }
    ensures capacity { vec_capacity parts.new ≡ vec_capacity parts.old }
{
    parts[number].mark = Mark::Settled;
}

// Puts a root, with p times the multiplicity, in the place of the part here.
fn put_root(parts: &mut Vec<Part>, number: usize, p: u32, row: &[u16])
    requires sized { All Sized parts.old.items }
    requires within { number < vec_len parts.old }
    requires some { 0 < length row.now }
    requires short { length row.now ≤ most_codes }
    requires counts { All (λ x. x.times ≤ most_degree) parts.old.items }
    requires count { (q : PartMeaning) → part_at (map part_of parts.old.items) number ≡ Some q → q.times * p ≤ most_degree }
    ensures placed { (q : PartMeaning) → part_at (map part_of parts.old.items) number ≡ Some q → map part_of parts.new.items ≡ placed_in row.now (q.times * p) (remove (map part_of parts.old.items) number) }
    ensures sized { All Sized parts.new.items }
    ensures capacity { vec_capacity parts.new ≡ vec_capacity parts.old }
{
    let part = parts.remove(number);
    place(parts, row, part.times * p);
}

// Puts two polynomials, with its multiplicity, in the place of the part here, for which there has to be room.
fn put_pieces(parts: &mut Vec<Part>, number: usize, g: &[u16], h: &[u16])
    requires sized { All Sized parts.old.items }
    requires within { number < vec_len parts.old }
    requires some_left { 0 < length g.now }
    requires short_left { length g.now ≤ most_codes }
    requires some_right { 0 < length h.now }
    requires short_right { length h.now ≤ most_codes }
    requires counts { All (λ x. x.times ≤ most_degree) parts.old.items }
    requires room { vec_len parts.old < vec_capacity parts.old }
    ensures placed { (q : PartMeaning) → part_at (map part_of parts.old.items) number ≡ Some q → map part_of parts.new.items ≡ placed_in h.now q.times (placed_in g.now q.times (remove (map part_of parts.old.items) number)) }
    ensures sized { All Sized parts.new.items }
    ensures capacity { vec_capacity parts.new ≡ vec_capacity parts.old }
{
    let part = parts.remove(number);
    place(parts, g, part.times);
    place(parts, h, part.times);
}
