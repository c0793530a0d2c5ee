ghost use Rattle.field.specs.Field.{FieldLaws, field_of};

use crate::{Field, ONE};

// Asks a field its three questions: with the answers come the field laws.
pub fn ask<F: Field>(field: &F)
    requires { F.made field.now }
    ensures { FieldLaws (field_of F.Field field.now) }
{
    let _ = field.characteristic();
    let _ = field.exponent();
    let _ = field.inverse(ONE);
}
