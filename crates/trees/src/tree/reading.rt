// What is read from the tree: who stands, who are neighbours.
ghost use Rattle.std.specs.Prelude.{◌≡◌};
ghost use Rattle.guides.specs.Meaning.{has, neighbours};
ghost use Rattle.tables.specs.Revisions.{at};
ghost use Rattle.trees.specs.Plain.{plain, entries_of};

use crate::tree::Tree;
use guides::{HIGH, LOW, Number};
use tables::Entry;

impl Tree {
    // The entry of a place.
    pub fn entry(&self, place: Number) -> Entry
        ensures { result ≡ at (entries_of self.now) place }
    {
        self.table.entry(place)
    }

    // Whether a place stands in the sequence: all but Low and High have a parent.
    #[tactic(auto, using(crate::proofs::Keeping::stands_is))]
    pub fn stands(&self, place: Number) -> bool
        ensures { result ≡ has place (plain self.now).sequence }
    {
        let parent = self.table.entry(place).parent;
        place <= HIGH || parent != LOW
    }

    // Whether two places are neighbours in the sequence, in that order.
    #[tactic(auto, using(crate::proofs::Keeping::neighbours_is))]
    pub fn are_neighbours(&self, lower: Number, upper: Number) -> bool
        ensures { result ≡ neighbours lower upper (plain self.now).sequence }
    {
        let after = self.table.entry(lower).after;
        upper != LOW && after == upper
    }
}
