// The even tree as a guide. A search starts at High, the root, and goes down from child to child.
ghost use Rattle.std.specs.Prelude.{◌≡◌, Ok, true};
ghost use Rattle.guides.specs.Meaning.{has, high};
ghost use Rattle.guides.specs.Rules.{attaching, detaching, Does, AnswersBeside};
ghost use Rattle.tables.specs.Changes.{hung_between, taken_out};
ghost use Rattle.even.specs.Evened.{evened, even_beside, Evens, entries_of, heights_of};
ghost use Rattle.even.specs.Marks.{marked_attached, marked_detached};
ghost use Rattle.std.proofs.Common.{rules};

use crate::balanced::Even;
use crate::heights::{Heights, Sides};
use guides::{Beside, Guide, GuideRefusal, LOW, Mended, Number, Side};
use tables::SLOTS;
use trees::Tree;

impl Guide for Even {
    const CAPACITY: usize = SLOTS;

    ghost CAPACITY = { 1024 };

    ghost meaning = { evened };

    ghost mends = { Evens };

    ghost keeps = { Prim.search rules };

    fn new() -> Even {
        Even {
            tree: Tree::new(),
            heights: Heights::new(),
        }
    }

    fn clear(&mut self, places: usize) -> Result<(), GuideRefusal> {
        self.tree.clear(places)?;
        self.heights = Heights::new();
        Ok(())
    }

    // High, the root.
    fn start(&self) -> Number
        ensures stands { has result (evened self.now).sequence ≡ true }
        ensures is_high { result ≡ high }
    {
        self.tree.start()
    }

    // The child on that side.
    fn beside(&self, place: Number, side: Side) -> Beside
        ensures keeps_the_rule { AnswersBeside (evened self.now).sequence place side result }
        ensures is_the_child { result ≡ even_beside self.now place side }
    {
        self.tree.beside(place, side)
    }

    // Hangs the place as the plain tree does. It has no heights yet, and the side that it fills gets 1.
    fn attach(&mut self, lower: Number, place: Number, upper: Number) -> Result<(), GuideRefusal>
        ensures does { Does evened (attaching lower place upper (evened self.old)) self.old result self.new }
        ensures entries { result ≡ Ok tt → entries_of self.new ≡ hung_between lower place upper (entries_of self.old) }
        ensures heights { result ≡ Ok tt → heights_of self.new ≡ marked_attached lower place upper (entries_of self.old) (heights_of self.old) }
    {
        let right = self.tree.entry(lower).children.right;
        self.tree.attach(lower, place, upper)?;
        self.heights.mark_attached(lower, place, upper, right);
        Ok(())
    }

    // Takes the place out as the plain tree does. A successor that moves up takes both its heights.
    fn detach(&mut self, place: Number) -> Result<(), GuideRefusal>
        ensures does { Does evened (detaching place (evened self.old)) self.old result self.new }
        ensures entries { result ≡ Ok tt → entries_of self.new ≡ taken_out place (entries_of self.old) }
        ensures heights { result ≡ Ok tt → heights_of self.new ≡ marked_detached place (entries_of self.old) (heights_of self.old) }
    {
        let entry = self.tree.entry(place);
        self.tree.detach(place)?;
        self.heights.mark_detached(place, entry);
        Ok(())
    }

    // Corrects a wrong side, or else turns a place that leans.
    fn mend(&mut self) -> Mended
        ensures meaning_stays { evened self.new ≡ evened self.old }
        ensures evens { Evens self.old result self.new }
    {
        if let Some(place) = self.first_flawed() {
            self.heights.correct(&self.tree, place);
            Mended::Mended
        } else if let Some(place) = self.tallest_leaning() {
            self.turn_over(place);
            Mended::Mended
        } else {
            Mended::Nothing
        }
    }
}
