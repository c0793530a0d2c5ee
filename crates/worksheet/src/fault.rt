ghost use Rattle.std.specs.Prelude.{◌≡◌};
ghost use Rattle.worksheet.specs.declared.fault.SheetFault.TheVariants.{Field as OfField, Poly as OfPoly};
ghost use Rattle.worksheet.specs.Faults.{sheet_number, sheet_layer, sheet_index};

use field::FieldFault;
use poly::PolyFault;

// Why a call on a worksheet is stopped.
#[derive(Clone, Copy, PartialEq, Eq, Debug)]
pub enum SheetFault {
    // a ring or field is refused
    Field(FieldFault),
    // a polynomial is refused
    Poly(PolyFault),
    // 20: the zero polynomial is entered
    ZeroEntry,
    // 21: the total degree would be above 127
    TotalDegree,
    // 22: no part is open
    NoOpenPart,
    // 23: the scratch is too short
    ShortScratch,
    // 24: there is no such part
    NoPart,
    // 25: the part is open
    OpenPart,
    // 14: the buffer is shorter than the part
    ShortBuffer,
}

impl SheetFault {
    pub fn number(self) -> u8
        ensures { result ≡ sheet_number self }
    {
        match self {
            SheetFault::Field(e) => e.number(),
            SheetFault::Poly(e) => e.number(),
            SheetFault::ShortBuffer => 14,
            SheetFault::ZeroEntry => 20,
            SheetFault::TotalDegree => 21,
            SheetFault::NoOpenPart => 22,
            SheetFault::ShortScratch => 23,
            SheetFault::NoPart => 24,
            SheetFault::OpenPart => 25,
        }
    }

    pub fn layer(self) -> u8
        ensures { result ≡ sheet_layer self }
    {
        match self {
            SheetFault::Field(e) => e.layer(),
            SheetFault::Poly(e) => e.layer(),
            _ => 3,
        }
    }

    pub fn index(self) -> usize
        ensures { result ≡ sheet_index self }
    {
        match self {
            SheetFault::Field(e) => e.index(),
            SheetFault::Poly(e) => e.index(),
            _ => 0,
        }
    }
}

impl From<FieldFault> for SheetFault {
    ghost from_gives = { λ e r. r ≡ OfField e };

    fn from(e: FieldFault) -> SheetFault {
        SheetFault::Field(e)
    }
}

impl From<PolyFault> for SheetFault {
    ghost from_gives = { λ e r. r ≡ OfPoly e };

    fn from(e: PolyFault) -> SheetFault {
        SheetFault::Poly(e)
    }
}
