// The kinds of a splitting step.
ghost use Rattle.std.specs.Prelude.{◌≡◌};
ghost use Rattle.split.specs.Kinds.{kind_number};

// What a step finds of a polynomial f, each case with its number; of two that fit, it is the first.
#[derive(Clone, Copy, PartialEq, Eq, Debug)]
pub enum Kind {
    // f is a p-th power, where p is the characteristic of the field
    Root = 1,
    // f has a common divisor of positive degree with its derivative
    Repeated = 2,
    // f has one with a shift of its least fixed polynomial
    Shifted = 3,
    // f does not split
    Whole = 4,
}

impl Kind {
    // The number of the kind.
    pub fn number(self) -> u8
        ensures { result ≡ kind_number self }
    {
        self as u8
    }
}
