// What a step works on.
ghost use Rattle.std.specs.Prelude.{◌≡◌, ◌≤◌, MatchOption};
ghost use Rattle.field.specs.Field.{FieldLaws, means};
ghost use Rattle.split.specs.Laws.{FieldLaws-prop};
ghost use Rattle.split.specs.Splitting.{scratch_size};
ghost use Rattle.split.specs.Calls.{Taken};

use field::{Field, ONE, ask};

// A monic polynomial f of positive degree, and its field with the laws of a field. Each method asks itself that the field is well made:
// of that property, which may be any, it is not known that it has one proof at most, as a ghost field must.
#[derive(Drop)]
pub(crate) struct Operand<'a, F: Field> {
    pub(crate) field: &'a F,
    pub(crate) f: &'a [u16],
    ghost laws: { FieldLaws (means (F.meaning field.now) (F.extras field.now)) } by { FieldLaws-prop (means (F.meaning field.now) (F.extras field.now)) },
    ghost taken: { Taken (F.meaning field.now) f.now },
}

impl<'a, F: Field> Operand<'a, F> {
    // The operand of f, for a step in a scratch of `room` codes; none where f is no such polynomial or the scratch is too short. The
    // laws of the field come with the answers to its three questions, which are asked last: an inverse may be dear.
    pub(crate) fn new(field: &'a F, f: &'a [u16], room: usize) -> Option<Self>
        requires { F.made field.now }
        ensures { MatchOption result (Taken (F.meaning field.now) f.now → scratch_size f.now ≤ room → ⊥) (λ x. (x.field.now ≡ field.now) × (x.f.now ≡ f.now) × (scratch_size f.now ≤ room)) }
    {
        poly::check(field, f).ok()?;
        let d = f.len() - 1;
        if d == 0 || f[d] != ONE || room < 2 * d * d {
            return None;
        }
        ask(field);
        Some(Operand { field, f })
    }
}
