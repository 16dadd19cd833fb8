// The straight guide: the sequence itself. It leads nowhere between Low and High, so a search that it guides walks the
// whole sequence from Low.
ghost use Rattle.std.specs.Prelude.{◌≡◌, ◌≤◌, true, is_some, IfSome, if◌then◌else◌};
ghost use Rattle.guides.specs.Meaning.{has, neighbours};
ghost use Rattle.guides.specs.Rules.{NothingMended, cleared, AnswersBeside};
ghost use Rattle.guides.specs.Straight.{straight, Holds};
ghost use Rattle.std.proofs.Common.{rules, arith};

use crate::answer::{Beside, GuideRefusal, Mended, Number, Side};
use crate::ends::{HIGH, LOW};
use crate::guide::Guide;
use crate::line::Line;
use arrayvec::ArrayVec;

impl Line {
    // A guide that was cleared for so many places.
    fn with_places(places: usize) -> Line
        requires { (2 ≤ places) × (places ≤ 64) }
        ensures { straight result ≡ cleared places }
    {
        let mut order = ArrayVec::new();
        order.push(LOW);
        order.push(HIGH);
        Line { order, places }
    }

    // The position at which a place stands.
    fn position(&self, place: Number) -> Option<usize>
        ensures tells { is_some result ≡ has place (straight self.now).sequence }
        ensures holds { IfSome result (Holds self.now place) }
    {
        self.order.iter().position(|stood| *stood == place)
    }

    // The position of the lower of two neighbours.
    fn gap(&self, lower: Number, upper: Number) -> Option<usize>
        ensures tells { is_some result ≡ neighbours lower upper (straight self.now).sequence }
        ensures holds { IfSome result (Holds self.now lower) }
    {
        let at = self.position(lower)?;
        (self.order.get(at + 1) == Some(&upper)).then_some(at)
    }
}

impl Guide for Line {
    const CAPACITY: usize = 64;

    ghost CAPACITY = { 64 };

    ghost meaning = { straight };

    ghost mends = { NothingMended };

    ghost keeps = { λ line. line.kept };

    fn new() -> Line {
        Line::with_places(2)
    }

    // The plain tree's steps are the same; one function for both would need a closure with a clause, and be longer.
    fn clear(&mut self, places: usize) -> Result<(), GuideRefusal> {
        if places < 2 || Self::CAPACITY < places {
            return Err(GuideRefusal::SmallGuide);
        }
        *self = Line::with_places(places);
        Ok(())
    }

    // Low, from where a search walks up.
    fn start(&self) -> Number
        ensures stands { has result (straight self.now).sequence ≡ true }
        ensures is_low { result ≡ 0 }
    {
        LOW
    }

    // The straight guide leads nowhere: beside each place is its end.
    fn beside(&self, place: Number, side: Side) -> Beside
        ensures keeps_the_rule { AnswersBeside (straight self.now).sequence place side result }
        ensures leads_nowhere { result ≡ (if has place (straight self.now).sequence then Beside.End else Beside.Absent) }
    {
        if self.position(place).is_some() {
            Beside::End
        } else {
            Beside::Absent
        }
    }

    fn attach(&mut self, lower: Number, place: Number, upper: Number) -> Result<(), GuideRefusal> {
        if self.places <= usize::from(place) || self.position(place).is_some() {
            return Err(GuideRefusal::BadSpot);
        }
        let Some(at) = self.gap(lower, upper) else {
            return Err(GuideRefusal::BadSpot);
        };
        self.order.insert(at + 1, place);
        Ok(())
    }

    fn detach(&mut self, place: Number) -> Result<(), GuideRefusal> {
        if place <= HIGH {
            return Err(GuideRefusal::NotThere);
        }
        let Some(at) = self.position(place) else {
            return Err(GuideRefusal::NotThere);
        };
        self.order.remove(at);
        Ok(())
    }

    // There is nothing to mend.
    fn mend(&mut self) -> Mended
        ensures meaning_stays { straight self.new ≡ straight self.old }
        ensures nothing_done { (result ≡ Mended.Nothing) × (self.new ≡ self.old) }
    {
        Mended::Nothing
    }
}
