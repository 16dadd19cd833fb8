// What the calls of the tree do to the recorded heights.
ghost use Rattle.std.specs.Prelude.{◌≡◌, not, ◌&&◌, ◌||◌, if◌then◌else◌, ◌==◌, nat_eq, slice_set};
ghost use Rattle.guides.specs.declared.answer.Side.TheVariants.{Lower, Higher};
ghost use Rattle.even.specs.Marks.{marked_turned};
ghost use Rattle.even.specs.Recorded.{recorded, sides_at, with_side};
ghost use Rattle.even.specs.Sides.{flat};

use crate::heights::{Heights, Sides, one_more};
use guides::{LOW, Number, Side};
use tables::Entry;

impl Heights {
    // A new place has no heights, and the side that it fills gets 1. `right` is what hung on the lower one's right.
    pub(crate) fn mark_attached(
        &mut self,
        lower: Number,
        place: Number,
        upper: Number,
        right: Number,
    )
        ensures { recorded self.new ≡ (if not (lower == 0) && right == 0 then with_side lower Higher 1 (slice_set (recorded self.old) place flat) else with_side upper Lower 1 (slice_set (recorded self.old) place flat)) }
    {
        self.put(place, Sides::flat());
        if lower != LOW && right == LOW {
            self.set_side(lower, Side::Higher, 1);
        } else {
            self.set_side(upper, Side::Lower, 1);
        }
    }

    // A successor that moves up takes both heights of the place. `entry` is what the table recorded of the place.
    pub(crate) fn mark_detached(&mut self, place: Number, entry: Entry)
        ensures { recorded self.new ≡ (if nat_eq entry.children.left 0 || entry.children.right == 0 then recorded self.old else slice_set (recorded self.old) entry.after (sides_at (recorded self.old) place)) }
    {
        if entry.children.left != LOW && entry.children.right != LOW {
            let sides = self.of(place);
            self.put(entry.after, sides);
        }
    }

    // The place's height on the side becomes the child's on the other side, and that one becomes one more than the
    // greater of the place's two.
    #[tactic(auto, unfolding(crate::specs::Marks::marked_turned))]
    pub(crate) fn mark_turned(&mut self, side: Side, place: Number, child: Number)
        ensures { recorded self.new ≡ marked_turned side place child (recorded self.old) }
    {
        let far = side.opposite();
        let inner = self.of(child).height(far);
        self.set_side(place, side, inner);
        let top = one_more(self.of(place).greater());
        self.set_side(child, far, top);
    }
}
