// The whole changes of the tree, each by one call. The table knows no rule: with another place than its guide hands it,
// a change writes just the same.
ghost use Rattle.std.specs.Prelude.{◌≡◌};
ghost use Rattle.tables.specs.Changes.{hung, hung_between, lifted, yielded, parted, unlinked, taken_out, turned};
ghost use Rattle.tables.specs.Rows.{rows};

use crate::entry::Entry;
use crate::table::Table;
use guides::{LOW, Number, Side};

impl Table {
    // Hangs a place on a side of a parent, between two neighbours.
    #[tactic(auto, unfolding(crate::specs::Changes::hung))]
    pub fn hang(&mut self, side: Side, parent: Number, place: Number, lower: Number, upper: Number)
        ensures { rows self.new ≡ hung side parent place lower upper (rows self.old) }
    {
        self.set_child(parent, side, place);
        self.put(
            place,
            Entry {
                parent,
                before: lower,
                after: upper,
                ..Entry::blank()
            },
        );
        self.set_after(lower, place);
        self.set_before(upper, place);
    }

    // Hangs a place between two neighbours: on the right of the lower one, if that is not Low and has no child there,
    // else on the left of the upper one.
    #[tactic(auto, unfolding(crate::specs::Changes::hung_between))]
    pub fn hang_between(&mut self, lower: Number, place: Number, upper: Number)
        ensures { rows self.new ≡ hung_between lower place upper (rows self.old) }
    {
        let right = self.entry(lower).children.right;
        if lower != LOW && right == LOW {
            self.hang(Side::Higher, lower, place, lower, upper);
        } else {
            self.hang(Side::Lower, upper, place, lower, upper);
        }
    }

    // Takes a place out of the tree and of the sequence.
    #[tactic(auto, unfolding(crate::specs::Changes::taken_out))]
    pub fn take_out(&mut self, place: Number)
        ensures { rows self.new ≡ taken_out place (rows self.old) }
    {
        self.unlink(place);
        self.part(place);
    }

    // Takes a place out of the tree. With two children its successor gets its spot.
    #[tactic(auto, unfolding(crate::specs::Changes::unlinked))]
    pub fn unlink(&mut self, place: Number)
        ensures { rows self.new ≡ unlinked place (rows self.old) }
    {
        let entry = self.entry(place);
        if entry.children.left == LOW || entry.children.right == LOW {
            self.lift(place);
        } else {
            self.lift(entry.after);
            self.yield_spot(place, entry.after);
        }
    }

    // Gives the spot of a place with at most one child to that child.
    #[tactic(auto, unfolding(crate::specs::Changes::lifted))]
    pub fn lift(&mut self, place: Number)
        ensures { rows self.new ≡ lifted place (rows self.old) }
    {
        let entry = self.entry(place);
        let child = entry.only_child();
        self.exchange_child(entry.parent, place, child);
        self.set_parent(child, entry.parent);
    }

    // Gives the spot of a place, with all that hangs there, to another one.
    #[tactic(auto, unfolding(crate::specs::Changes::yielded))]
    pub fn yield_spot(&mut self, place: Number, other: Number)
        ensures { rows self.new ≡ yielded place other (rows self.old) }
    {
        let entry = self.entry(place);
        self.exchange_child(entry.parent, place, other);
        self.set_parent(entry.children.left, other);
        self.set_parent(entry.children.right, other);
        self.set_links(other, entry);
    }

    // Makes the neighbours of a place each other's, and its entry blank.
    #[tactic(auto, unfolding(crate::specs::Changes::parted))]
    pub fn part(&mut self, place: Number)
        ensures { rows self.new ≡ parted place (rows self.old) }
    {
        let entry = self.entry(place);
        self.set_after(entry.before, entry.after);
        self.set_before(entry.after, entry.before);
        self.put(place, Entry::blank());
    }

    // Turns a place: its child on the side takes its spot.
    #[tactic(auto, unfolding(crate::specs::Changes::turned))]
    pub fn turn(&mut self, side: Side, place: Number)
        ensures { rows self.new ≡ turned side place (rows self.old) }
    {
        let entry = self.entry(place);
        let child = entry.child(side);
        let inner = self.entry(child).child(side.opposite());
        self.rehang(place, side, inner, child);
        self.set_parent(inner, place);
        self.exchange_child(entry.parent, place, child);
        self.rehang(child, side.opposite(), place, entry.parent);
    }
}
