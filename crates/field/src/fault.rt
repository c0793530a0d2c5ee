ghost use Rattle.std.specs.Prelude.{◌≡◌};
ghost use Rattle.field.specs.Faults.{field_number, field_layer, field_index};

// Why no ring or field is made, with the number of each refusal.
#[derive(Clone, Copy, PartialEq, Eq, Debug)]
pub enum FieldFault {
    // the modulus of residues or of a prime field is not 2 to 256
    Modulus = 1,
    // the modulus of a prime field is not prime
    NotPrime = 2,
    // k of a quotient or an extension is not 2 to 16
    Height = 3,
    // the order of a quotient or an extension is above 65,536
    Order = 4,
    // the number of the modulus of a quotient or an extension is not below its order
    Number = 5,
    // the modulus of an extension is a product of two polynomials of smaller positive degree
    ModulusSplits = 6,
}

impl FieldFault {
    // rings and fields are the first layer
    const LAYER: u8 = 1;

    // no fault of this layer has an index of its own
    const INDEX: usize = 0;

    pub fn number(self) -> u8
        ensures { result ≡ field_number self }
    {
        self as u8
    }

    pub fn layer(self) -> u8
        ensures { result ≡ field_layer self }
    {
        Self::LAYER
    }

    pub fn index(self) -> usize
        ensures { result ≡ field_index self }
    {
        Self::INDEX
    }
}
