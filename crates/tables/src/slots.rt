// A table by places, of any type: each place from 0 to 1023 has its slot, and none beyond.
ghost use Rattle.std.specs.Prelude.{◌≡◌, replicate, slice_index_or, slice_set};

use guides::Number;

// The number of slots. They lie in the value itself and name one another by number, and are no boxes: making a guide
// takes no heap and cannot fail, and each call finds a place by its number.
pub const SLOTS: usize = 1024;

#[derive(Drop)]
pub struct Slots<T> {
    slots: [T; SLOTS],
}

impl<T: Copy> Slots<T> {
    // Every slot holds the same value.
    pub fn new(value: T) -> Slots<T>
        ensures { result.slots ≡ replicate 1024 value }
    {
        Slots {
            slots: [value; SLOTS],
        }
    }

    // What the slot of a place holds, or `beyond` for a place that has none.
    pub fn read(&self, place: Number, beyond: T) -> T
        ensures { result ≡ slice_index_or self.now.slots place beyond }
    {
        self.slots
            .get(usize::from(place))
            .copied()
            .unwrap_or(beyond)
    }

    // Writes the slot of a place; for a place that has none nothing is written.
    pub fn write(&mut self, place: Number, value: T)
        ensures { self.new.slots ≡ slice_set self.old.slots place value }
    {
        // The library's clauses do not tell what a slice holds after a write through its get_mut.
        if usize::from(place) < SLOTS {
            self.slots[usize::from(place)] = value;
        }
    }
}
