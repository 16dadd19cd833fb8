// The table of the straight guide. The guide itself stands in a file below, since its clauses speak of the table.
ghost use Rattle.std.specs.Prelude.{◌≡◌, ◌≤◌, true};
ghost use Rattle.guides.specs.Meaning.{lawful};
ghost use Rattle.guides.specs.Lines.{line_meaning};

use crate::answer::Number;
use arrayvec::ArrayVec;

mod straight;

#[derive(Drop)]
pub struct Line {
    // The sequence from Low to High. It lies in the guide itself, with room for 64 places.
    order: ArrayVec<Number, 64>,
    // The number of places that the guide was last cleared for.
    places: usize,
    ghost bounded: { places ≤ 64 },
    ghost kept: { lawful (line_meaning order.items places) ≡ true },
}
