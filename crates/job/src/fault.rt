// Why a job is refused.
ghost use Rattle.std.specs.Prelude.{◌≡◌};
ghost use Rattle.job.specs.Faults.{job_number, job_layer, job_place, job_below};

use worksheet::SheetFault;

// Why a job is refused, with the place of a byte, counted from 0.
#[derive(Clone, Copy, PartialEq, Eq, Debug)]
pub enum JobFault {
    // 40: the bytes end too early; how many there are
    EndsEarly(usize),
    // 41: a count, length or kind is not allowed; its place
    NotAllowed(usize),
    // 42: bytes are left over; the place of the first of them
    LeftOver(usize),
    // 43: a record is refused below; the place of its first byte, and the refusal
    Record(usize, SheetFault),
}

impl JobFault {
    pub fn number(self) -> u8
        ensures { result ≡ job_number self }
    {
        match self {
            JobFault::EndsEarly(_) => 40,
            JobFault::NotAllowed(_) => 41,
            JobFault::LeftOver(_) => 42,
            JobFault::Record(_, _) => 43,
        }
    }

    pub fn layer(self) -> u8
        ensures { result ≡ job_layer self }
    {
        4
    }

    pub fn place(self) -> usize
        ensures { result ≡ job_place self }
    {
        match self {
            JobFault::EndsEarly(at)
            | JobFault::NotAllowed(at)
            | JobFault::LeftOver(at)
            | JobFault::Record(at, _) => at,
        }
    }

    // The refusal that is wrapped, if there is one.
    pub fn below(self) -> Option<SheetFault>
        ensures { result ≡ job_below self }
    {
        match self {
            JobFault::Record(_, e) => Some(e),
            _ => None,
        }
    }
}
