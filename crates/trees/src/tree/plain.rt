// The plain tree as a guide. A search starts at High, the root, and goes down from child to child.
ghost use Rattle.std.specs.Prelude.{◌≡◌, ◌≤◌, Ok, true};
ghost use Rattle.guides.specs.Meaning.{has, high};
ghost use Rattle.guides.specs.Rules.{cleared, attaching, detaching, Does, AnswersBeside, NothingMended};
ghost use Rattle.tables.specs.Changes.{hung_between, taken_out};
ghost use Rattle.trees.specs.Plain.{plain, plain_beside, entries_of};
ghost use Rattle.std.proofs.Common.{rules, arith};

use crate::tree::Tree;
use guides::{Beside, Guide, GuideRefusal, HIGH, LOW, Mended, Number, Side};
use tables::{SLOTS, Table};

impl Tree {
    // A tree that was cleared for so many places.
    fn with_places(places: usize) -> Tree
        requires { (2 ≤ places) × (places ≤ 1024) }
        ensures { plain result ≡ cleared places }
    {
        Tree {
            table: Table::new(),
            places,
        }
    }
}

impl Guide for Tree {
    const CAPACITY: usize = SLOTS;

    ghost CAPACITY = { 1024 };

    ghost meaning = { plain };

    ghost mends = { NothingMended };

    ghost keeps = { λ tree. tree.lawful };

    fn new() -> Tree {
        Tree::with_places(2)
    }

    // The straight guide's steps are the same; one function for both would need a closure with a clause, and be longer.
    fn clear(&mut self, places: usize) -> Result<(), GuideRefusal> {
        if places < 2 || Self::CAPACITY < places {
            return Err(GuideRefusal::SmallGuide);
        }
        *self = Tree::with_places(places);
        Ok(())
    }

    // High, the root.
    #[tactic(auto, using(crate::proofs::Answering::tree_enters))]
    fn start(&self) -> Number
        ensures stands { has result (plain self.now).sequence ≡ true }
        ensures is_high { result ≡ high }
    {
        HIGH
    }

    // The child on that side.
    fn beside(&self, place: Number, side: Side) -> Beside
        ensures keeps_the_rule { AnswersBeside (plain self.now).sequence place side result }
        ensures is_the_child { result ≡ plain_beside self.now place side }
    {
        if !self.stands(place) {
            return Beside::Absent;
        }
        let child = self.entry(place).child(side);
        if place == LOW || child == LOW {
            Beside::End
        } else {
            Beside::Stands(child)
        }
    }

    // Hangs the place on the right of the lower one, if that is not Low and has no child there, else on the left of the
    // upper one.
    fn attach(&mut self, lower: Number, place: Number, upper: Number) -> Result<(), GuideRefusal>
        ensures does { Does plain (attaching lower place upper (plain self.old)) self.old result self.new }
        ensures entries { result ≡ Ok tt → entries_of self.new ≡ hung_between lower place upper (entries_of self.old) }
    {
        if self.places <= usize::from(place)
            || self.stands(place)
            || !self.are_neighbours(lower, upper)
        {
            return Err(GuideRefusal::BadSpot);
        }
        self.table.hang_between(lower, place, upper);
        Ok(())
    }

    // Puts the child of a place with at most one in its place, and else the successor.
    fn detach(&mut self, place: Number) -> Result<(), GuideRefusal>
        ensures does { Does plain (detaching place (plain self.old)) self.old result self.new }
        ensures entries { result ≡ Ok tt → entries_of self.new ≡ taken_out place (entries_of self.old) }
    {
        if place <= HIGH || !self.stands(place) {
            return Err(GuideRefusal::NotThere);
        }
        self.table.take_out(place);
        Ok(())
    }

    // There is nothing to mend.
    fn mend(&mut self) -> Mended
        ensures meaning_stays { plain self.new ≡ plain self.old }
        ensures nothing_done { (result ≡ Mended.Nothing) × (self.new ≡ self.old) }
    {
        Mended::Nothing
    }
}
