ghost use Rattle.std.specs.Prelude.{◌≡◌};
ghost use Rattle.poly.specs.Faults.{poly_number, poly_layer, poly_index};

// Why a polynomial is not taken, or a result not given.
#[derive(Clone, Copy, PartialEq, Eq, Debug)]
pub enum PolyFault {
    // 10: no code, or more than 128
    Length,
    // 11: a code not below the order, with the index of the first
    NotCode(usize),
    // 12: the last of several codes is 0, with its index
    LastZero(usize),
    // 13: the divisor is the zero polynomial
    ZeroDivisor,
    // 14: a buffer is shorter than its result
    Short,
    // 15: the lengths of the factors sum to more than 129
    LongProduct,
}

impl PolyFault {
    pub fn number(self) -> u8
        ensures { result ≡ poly_number self }
    {
        match self {
            PolyFault::Length => 10,
            PolyFault::NotCode(_) => 11,
            PolyFault::LastZero(_) => 12,
            PolyFault::ZeroDivisor => 13,
            PolyFault::Short => 14,
            PolyFault::LongProduct => 15,
        }
    }

    pub fn layer(self) -> u8
        ensures { result ≡ poly_layer self }
    {
        2
    }

    pub fn index(self) -> usize
        ensures { result ≡ poly_index self }
    {
        match self {
            PolyFault::NotCode(i) | PolyFault::LastZero(i) => i,
            _ => 0,
        }
    }
}
