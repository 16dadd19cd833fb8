// What the table records of a place: its children and its parent in the tree, and its neighbours in the sequence.
ghost use Rattle.std.specs.Prelude.{◌≡◌};
ghost use Rattle.tables.specs.Entries.{blank, child, with_child, with_exchanged, with_links, only_child};

use guides::{BySide, LOW, Number, Side};

// Each link is the number of a place, or 0 for none. With an Option each change would test a link before it reads or
// writes there; at 0 it reads and writes Low's entry, whose parent and children count for nothing.
#[derive(Clone, Copy, PartialEq, Eq, Debug)]
pub struct Entry {
    pub children: BySide<Number>,
    pub parent: Number,
    pub before: Number,
    pub after: Number,
}

impl Entry {
    // The entry of a place that does not stand in the tree.
    pub fn blank() -> Entry
        ensures { result ≡ blank }
    {
        Entry {
            children: BySide {
                left: LOW,
                right: LOW,
            },
            parent: LOW,
            before: LOW,
            after: LOW,
        }
    }

    // The child on a side, 0 if there is none.
    pub fn child(self, side: Side) -> Number
        ensures { result ≡ child side self }
    {
        self.children.get(side)
    }

    // The child of a place that has at most one, 0 if it has none.
    pub fn only_child(self) -> Number
        ensures { result ≡ only_child self }
    {
        if self.children.left == LOW {
            self.children.right
        } else {
            self.children.left
        }
    }

    // The entry with another child on a side.
    pub fn with_child(self, side: Side, child: Number) -> Entry
        ensures { result ≡ with_child side child self }
    {
        Entry {
            children: self.children.with(side, child),
            ..self
        }
    }

    // The entry with the children and the parent of another one, and its own neighbours.
    pub fn with_links(self, other: Entry) -> Entry
        ensures { result ≡ with_links other self }
    {
        Entry {
            before: self.before,
            after: self.after,
            ..other
        }
    }

    // The entry with a new child in the spot of an old one.
    pub fn with_exchanged(self, old: Number, new: Number) -> Entry
        ensures { result ≡ with_exchanged old new self }
    {
        if self.children.left == old {
            self.with_child(Side::Lower, new)
        } else {
            self.with_child(Side::Higher, new)
        }
    }
}
