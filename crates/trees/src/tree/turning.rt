// Turns of the tree, which keep the sequence.
ghost use Rattle.std.specs.Prelude.{◌≡◌, if◌then◌else◌};
ghost use Rattle.tables.specs.Changes.{turned};
ghost use Rattle.trees.specs.Plain.{plain, entries_of, can_turn};

use crate::tree::Tree;
use guides::{HIGH, LOW, Number, Side};

impl Tree {
    // Turns a place other than High that has a child on the side: the child takes its spot. Tells whether it turned.
    // The answer is a bool: no value comes with it, and none of its callers asks why a place did not turn.
    pub fn turn(&mut self, side: Side, place: Number) -> bool
        ensures keeps { plain self.new ≡ plain self.old }
        ensures tells { result ≡ can_turn side place (entries_of self.old) }
        ensures turns { entries_of self.new ≡ (if result then turned side place (entries_of self.old) else entries_of self.old) }
    {
        if place <= HIGH || !self.stands(place) {
            return false;
        }
        let child = self.entry(place).child(side);
        if child == LOW {
            return false;
        }
        self.table.turn(side, place);
        true
    }
}
