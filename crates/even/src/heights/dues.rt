// The heights that a tree asks for, and the correction of one that is wrong.
ghost use Rattle.std.specs.Prelude.{◌≡◌};
ghost use Rattle.trees.specs.Plain.{entries_of};
ghost use Rattle.even.specs.Balance.{due, wrong, corrected};
ghost use Rattle.even.specs.Recorded.{recorded, with_side};

use crate::heights::{Heights, one_more};
use guides::{LOW, Number, Side};
use trees::Tree;

// A tree, a place and a side stay three parameters: a struct of them would be made at each call only to be taken apart.
impl Heights {
    // The height that a side should have.
    fn due(&self, tree: &Tree, place: Number, side: Side) -> u16
        ensures { result ≡ due (entries_of tree.now) (recorded self.now) place side }
    {
        let child = tree.entry(place).child(side);
        if child == LOW {
            0
        } else {
            one_more(self.of(child).greater())
        }
    }

    // Whether a side is wrong.
    pub(crate) fn is_wrong(&self, tree: &Tree, place: Number, side: Side) -> bool
        ensures { result ≡ wrong (entries_of tree.now) (recorded self.now) place side }
    {
        self.of(place).height(side) != self.due(tree, place, side)
    }

    // Gives a side the height that it should have.
    fn set_due(&mut self, tree: &Tree, place: Number, side: Side)
        ensures { recorded self.new ≡ with_side place side (due (entries_of tree.now) (recorded self.old) place side) (recorded self.old) }
    {
        let height = self.due(tree, place, side);
        self.set_side(place, side, height);
    }

    // Corrects a wrong side of a place, the left one first.
    #[tactic(auto, unfolding(crate::specs::Balance::corrected))]
    pub(crate) fn correct(&mut self, tree: &Tree, place: Number)
        ensures { recorded self.new ≡ corrected place (entries_of tree.now) (recorded self.old) }
    {
        if self.is_wrong(tree, place, Side::Lower) {
            self.set_due(tree, place, Side::Lower);
        } else {
            self.set_due(tree, place, Side::Higher);
        }
    }
}
