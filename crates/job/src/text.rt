// The text of a listing and of a refusal.
ghost use Rattle.std.specs.Prelude.{map, Some};
ghost use Rattle.std.specs.Fmt.{WritesOnOk};
ghost use Rattle.worksheet.specs.Meaning.{part_of};
ghost use Rattle.job.specs.Outcome.{outcome_of};
ghost use Rattle.job.specs.Listing.{spaced, part_line, part_lines, listing_text, below_text, refusal_text};

use crate::fault::JobFault;
use crate::listing::Listing;
use std::fmt;
use worksheet::{Part, SheetFault};

// Each code after a space.
fn write_codes<W: fmt::Write>(f: &mut fmt::Formatter<W>, codes: &[u16]) -> fmt::Result
    ensures { WritesOnOk W.Write.write_str_gives f.old result (spaced codes.now) f.new }
{
    for code in codes {
        write!(f, " {code}")?;
    }
    Ok(())
}

// The line of a part.
fn write_part<W: fmt::Write>(f: &mut fmt::Formatter<W>, part: &Part) -> fmt::Result
    ensures { WritesOnOk W.Write.write_str_gives f.old result (part_line (part_of part.now)) f.new }
{
    let codes = part.codes();
    let degree = codes.len().saturating_sub(1);
    let times = part.times();
    write!(f, "degree {degree} times {times} codes")?;
    write_codes(f, codes)?;
    f.write_str("\n")
}

// The lines of the parts.
fn write_parts<W: fmt::Write>(f: &mut fmt::Formatter<W>, parts: &[Part]) -> fmt::Result
    ensures { WritesOnOk W.Write.write_str_gives f.old result (part_lines (map part_of parts.now)) f.new }
{
    for part in parts {
        write_part(f, part)?;
    }
    Ok(())
}

impl fmt::Display for Listing {
    ghost output = { λ x. Some (listing_text (outcome_of x)) };

    fn fmt<W: fmt::Write>(&self, f: &mut fmt::Formatter<W>) -> fmt::Result {
        let order = self.order;
        let unit = self.unit;
        let steps = self.steps;
        writeln!(f, "order {order} unit {unit} steps {steps}")?;
        write_parts(f, self.parts())
    }
}

// The layer, the number and the place of the refusal of a record, if it is one.
fn write_below<W: fmt::Write>(f: &mut fmt::Formatter<W>, below: Option<SheetFault>) -> fmt::Result
    ensures { WritesOnOk W.Write.write_str_gives f.old result (below_text below) f.new }
{
    let Some(fault) = below else {
        return Ok(());
    };
    let layer = fault.layer();
    let number = fault.number();
    let index = fault.index();
    write!(f, " layer {layer} number {number} place {index}")
}

impl fmt::Display for JobFault {
    ghost output = { λ x. Some (refusal_text x) };

    fn fmt<W: fmt::Write>(&self, f: &mut fmt::Formatter<W>) -> fmt::Result {
        let number = self.number();
        let place = self.place();
        write!(f, "refused {number} byte {place}")?;
        write_below(f, self.below())?;
        f.write_str("\n")
    }
}
