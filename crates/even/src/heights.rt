// The heights that are recorded for each place, on its left and on its right.
ghost use Rattle.std.specs.Prelude.{◌≡◌};
ghost use Rattle.even.specs.Sides.{flat, side_height, with_height, greater, one_more, uneven, heavier};

use guides::{BySide, Side};
use tables::Slots;

mod dues;
mod marks;
mod table;

// The two heights of a place.
// It wraps one BySide: contracts have a word for it, and what is asked of heights alone are its own methods.
#[derive(Clone, Copy, PartialEq, Eq, Debug)]
pub struct Sides {
    pub heights: BySide<u16>,
}

impl Sides {
    // The heights of a place without children.
    pub fn flat() -> Sides
        ensures { result ≡ flat }
    {
        Sides {
            heights: BySide { left: 0, right: 0 },
        }
    }

    // The height on a side.
    pub fn height(self, side: Side) -> u16
        ensures { result ≡ side_height side self }
    {
        self.heights.get(side)
    }

    // The heights with another one on a side.
    pub fn with_height(self, side: Side, height: u16) -> Sides
        ensures { result ≡ with_height side height self }
    {
        Sides {
            heights: self.heights.with(side, height),
        }
    }

    // Whether the heights differ by 2 or more.
    pub fn uneven(self) -> bool
        ensures { result ≡ uneven self }
    {
        self.heights.left.abs_diff(self.heights.right) >= 2
    }

    // The side of the greater height, the left one if they are equal.
    pub fn heavier(self) -> Side
        ensures { result ≡ heavier self }
    {
        if self.heights.left < self.heights.right {
            Side::Higher
        } else {
            Side::Lower
        }
    }

    // The greater of the two heights.
    pub fn greater(self) -> u16
        ensures { result ≡ greater self }
    {
        self.heights.left.max(self.heights.right)
    }
}

// One more than a height, as far as a height counts.
pub fn one_more(height: u16) -> u16
    ensures { result ≡ one_more height }
{
    height.saturating_add(1)
}

// The heights of places 0 to 1023, read and written slot by slot as the table's entries are.
#[derive(Drop)]
pub struct Heights {
    sides: Slots<Sides>,
}
