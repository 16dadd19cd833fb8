// What a guide promises, stated through its meaning alone: a sequence of places from Low to High and the number of
// places that it was last cleared for.
ghost use Rattle.std.specs.Prelude.{◌≡◌, ℕ, true};
ghost use Rattle.guides.specs.declared.answer.Mended.{Mended as MendAnswer};
ghost use Rattle.guides.specs.Meaning.{Meaning, has, lawful};
ghost use Rattle.guides.specs.Rules.{cleared, clearing, attaching, detaching, Does, AnswersBeside};

use crate::answer::{Beside, GuideRefusal, Mended, Number, Side};

pub trait Guide: Sized {
    // The greatest number of places that the guide holds.
    const CAPACITY: usize;

    // The same number, for clauses.
    ghost CAPACITY: { ℕ };

    ghost meaning: { Self → Meaning };

    // What this guide's mend answers and leaves.
    ghost mends: { Self → MendAnswer → Self → Type 0 };

    // A new guide is as cleared for two places.
    fn new() -> Self
        ensures { meaning result ≡ cleared 2 };

    // Makes the sequence Low, High, for so many places.
    fn clear(&mut self, places: usize) -> Result<(), GuideRefusal>
        ensures { Does meaning (clearing CAPACITY places) self.old result self.new };

    // Some place of the sequence.
    fn start(&self) -> Number
        ensures { has result (meaning self.now).sequence ≡ true };

    // A place of the sequence on the given side of the given one, as far as the guide leads.
    fn beside(&self, place: Number, side: Side) -> Beside
        ensures { AnswersBeside (meaning self.now).sequence place side result };

    // Puts a place between two neighbours.
    // They stay three parameters in every guide: a struct of them would be made at each call only to be taken apart.
    fn attach(&mut self, lower: Number, place: Number, upper: Number) -> Result<(), GuideRefusal>
        ensures { Does meaning (attaching lower place upper (meaning self.old)) self.old result self.new };

    // Takes a place out.
    fn detach(&mut self, place: Number) -> Result<(), GuideRefusal>
        ensures { Does meaning (detaching place (meaning self.old)) self.old result self.new };

    // Makes one small correction of the guide's own, which keeps the meaning.
    fn mend(&mut self) -> Mended
        ensures spares { meaning self.new ≡ meaning self.old }
        ensures does { mends self.old result self.new };

    ghost keeps: { (g : Self) → lawful (meaning g) ≡ true };
}
