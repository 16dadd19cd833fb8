// The recorded heights, read and written place by place.
ghost use Rattle.std.specs.Prelude.{◌≡◌, replicate, slice_set};
ghost use Rattle.even.specs.Sides.{flat};
ghost use Rattle.even.specs.Recorded.{recorded, sides_at, with_side};

use crate::heights::{Heights, Sides};
use guides::{Number, Side};
use tables::Slots;

impl Heights {
    // No place has a child.
    pub fn new() -> Heights
        ensures { recorded result ≡ replicate 1024 flat }
    {
        Heights {
            sides: Slots::new(Sides::flat()),
        }
    }

    // The heights of a place; beyond the table they are flat.
    pub fn of(&self, place: Number) -> Sides
        ensures { result ≡ sides_at (recorded self.now) place }
    {
        self.sides.read(place, Sides::flat())
    }

    // Writes the heights of a place; beyond the table nothing is written.
    pub fn put(&mut self, place: Number, sides: Sides)
        ensures { recorded self.new ≡ slice_set (recorded self.old) place sides }
    {
        self.sides.write(place, sides);
    }

    // Writes the height of a place on a side.
    pub fn set_side(&mut self, place: Number, side: Side, height: u16)
        ensures { recorded self.new ≡ with_side place side height (recorded self.old) }
    {
        let sides = self.of(place);
        self.put(place, sides.with_height(side, height));
    }
}
