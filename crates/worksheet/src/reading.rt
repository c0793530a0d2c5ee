// What a worksheet tells of itself.
ghost use Rattle.std.specs.Prelude.{◌≡◌, ◌≤◌, map, length};
ghost use Rattle.worksheet.specs.Sheet.{most_degree, total_degree, open_count};
ghost use Rattle.worksheet.specs.Meaning.{part_of, sheet_of, SheetMade};

use crate::parts::{Part, Worksheet};
use field::Field;

impl<F> Worksheet<F> {
    // The unit, a code.
    pub fn unit(&self) -> u16
        ensures { result ≡ (sheet_of self.now).unit }
    {
        self.unit
    }

    // How many parts there are.
    pub fn count(&self) -> usize
        ensures { result ≡ length (sheet_of self.now).parts }
    {
        self.parts.len()
    }

    // How many parts are open.
    pub fn open_count(&self) -> usize
        ensures { result ≡ open_count (sheet_of self.now).parts }
    {
        count_open(&self.parts)
    }
}

impl<F: Field> Worksheet<F> {
    // The order of the field.
    pub fn order(&self) -> u32
        requires { SheetMade F.Field self.now }
        ensures { result ≡ (F.meaning self.now.field).order }
    {
        self.field.order()
    }

    // The parts, in their order; the worksheet ends.
    pub fn into_parts(self) -> Vec<Part>
        ensures { map part_of result.items ≡ (sheet_of self).parts }
    {
        let Worksheet { parts, .. } = self;
        parts
    }
}

// How many of the parts are open.
fn count_open(parts: &[Part]) -> usize
    ensures { result ≡ open_count (map part_of parts.now) }
{
    parts
        .iter()
        .map(|part| usize::from(part.mark.is_open()))
        .sum()
}

// The sum of degree times multiplicity over the parts.
pub(crate) fn degree_of(parts: &[Part]) -> usize
    requires { total_degree (map part_of parts.now) ≤ most_degree }
    ensures { result ≡ total_degree (map part_of parts.now) }
{
    parts
        .iter()
        .map(|part| part.degree() * part.times as usize)
        .sum()
}
