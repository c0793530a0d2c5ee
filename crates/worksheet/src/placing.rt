// Placing a part among others, in their order.
ghost use Rattle.std.specs.Prelude.{◌≡◌, ◌+◌, ◌^◌, ◌<◌, ◌≤◌, map, length, vec_len, vec_capacity};
ghost use Rattle.std.specs.List.{All};
ghost use Rattle.poly.specs.Faults.{most_codes};
ghost use Rattle.worksheet.specs.Sheet.{place as placed_in};
ghost use Rattle.worksheet.specs.Places.{place_of};
ghost use Rattle.worksheet.specs.Meaning.{part_of, Sized};

use crate::order::stands_before;
use crate::parts::Part;

// The place of the first part that does not stand before these codes.
pub(crate) fn position(parts: &[Part], codes: &[u16]) -> usize
    ensures { result ≡ place_of codes.now (map part_of parts.now) }
{
    // from the front: a search by halves would ask that the parts stand in order, which only a whole worksheet promises
    parts
        .iter()
        .position(|part| !stands_before(part.codes(), codes))
        .unwrap_or(parts.len())
}

// Places these codes: a part that has them grows, else a new open part is inserted, for which there has to be room.
pub(crate) fn place(parts: &mut Vec<Part>, codes: &[u16], times: u32)
    requires sized { All Sized parts.old.items }
    requires some { 0 < length codes.now }
    requires short { length codes.now ≤ most_codes }
    requires counts { All (λ p. p.times + times < 2 ^ 32) parts.old.items }
    requires room { vec_len parts.old < vec_capacity parts.old }
    ensures placed { map part_of parts.new.items ≡ placed_in codes.now times (map part_of parts.old.items) }
    ensures sized { All Sized parts.new.items }
    ensures capacity { vec_capacity parts.new ≡ vec_capacity parts.old }
{
    let at = position(parts, codes);
    match parts.get_mut(at) {
        Some(part) if part.codes() == codes => part.times += times,
        _ => {
            let _ = parts.insert(at, Part::open(codes, times));
        }
    }
}
