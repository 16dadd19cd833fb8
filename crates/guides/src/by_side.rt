// A pair of values, one for each side of a place.
ghost use Rattle.std.specs.Prelude.{◌≡◌};
ghost use Rattle.guides.specs.Pairs.{on_side, with_on_side};

use crate::answer::Side;

#[derive(Clone, Copy, PartialEq, Eq, Debug)]
pub struct BySide<T> {
    pub left: T,
    pub right: T,
}

impl<T: Copy> BySide<T> {
    // The value on a side.
    pub fn get(self, side: Side) -> T
        ensures { result ≡ on_side side self }
    {
        match side {
            Side::Lower => self.left,
            Side::Higher => self.right,
        }
    }

    // The pair with another value on a side.
    pub fn with(self, side: Side, value: T) -> BySide<T>
        ensures { result ≡ with_on_side side value self }
    {
        match side {
            Side::Lower => BySide {
                left: value,
                ..self
            },
            Side::Higher => BySide {
                right: value,
                ..self
            },
        }
    }
}
