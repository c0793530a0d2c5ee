// What comes of a job that is not refused.
ghost use Rattle.std.specs.Prelude.{◌≡◌, map};
ghost use Rattle.worksheet.specs.Meaning.{part_of};
ghost use Rattle.job.specs.Outcome.{outcome_of};

use worksheet::Part;

// The order of the field, and the worksheet after its steps: unit and parts. The steps are counted.
#[derive(Drop)]
pub struct Listing {
    pub(crate) order: u32,
    pub(crate) unit: u16,
    pub(crate) steps: u32,
    pub(crate) parts: Vec<Part>,
}

impl Listing {
    // The order of the field.
    pub fn order(&self) -> u32
        ensures { result ≡ (outcome_of self.now).order }
    {
        self.order
    }

    // The unit, a code.
    pub fn unit(&self) -> u16
        ensures { result ≡ (outcome_of self.now).unit }
    {
        self.unit
    }

    // How many steps there were.
    pub fn steps(&self) -> u32
        ensures { result ≡ (outcome_of self.now).steps }
    {
        self.steps
    }

    // The parts, in their order.
    pub fn parts(&self) -> &[Part]
        ensures { map part_of result.now ≡ (outcome_of self.now).parts }
    {
        self.parts.as_slice()
    }
}
