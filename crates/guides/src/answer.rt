// What a guide is asked and what it answers.
ghost use Rattle.std.specs.Prelude.{◌≡◌, Some};
ghost use Rattle.guides.specs.Labels.{guide_label};
ghost use Rattle.guides.specs.Sides.{opposite};

use std::error::Error;
use std::fmt;

// The number of a place. Low is 0, High is 1.
pub type Number = u16;

// The side of a place on which another is looked for.
#[derive(Clone, Copy, PartialEq, Eq, Debug)]
pub enum Side {
    Lower,
    Higher,
}

impl Side {
    // The other side.
    pub fn opposite(self) -> Side
        ensures { result ≡ opposite self }
    {
        match self {
            Side::Lower => Side::Higher,
            Side::Higher => Side::Lower,
        }
    }
}

// What stands beside a place.
// Every guide's contract says these three words; of an Option in an Option each would have to tell which None it means.
#[derive(Clone, Copy, PartialEq, Eq, Debug)]
pub enum Beside {
    // The place asked about is not in the sequence.
    Absent,
    // The guide leads no further on that side.
    End,
    // A place of the sequence on that side.
    Stands(Number),
}

// What mend did: one small correction, or nothing, since none was needed.
// Every guide's contract says these two words; a bool would not tell there which of them it means.
#[derive(Clone, Copy, PartialEq, Eq, Debug)]
pub enum Mended {
    Mended,
    Nothing,
}

// Why a guide refused a call.
#[derive(Clone, Copy, PartialEq, Eq, Debug)]
pub enum GuideRefusal {
    SmallGuide,
    BadSpot,
    NotThere,
}

impl GuideRefusal {
    // The refusal's number.
    pub fn number(self) -> u8
        ensures { result ≡ (guide_label self).number }
    {
        match self {
            GuideRefusal::SmallGuide => 2,
            GuideRefusal::BadSpot => 9,
            GuideRefusal::NotThere => 10,
        }
    }

    // The refusal's name.
    pub fn name(self) -> &'static str
        ensures { result.now ≡ (guide_label self).name }
    {
        match self {
            GuideRefusal::SmallGuide => "SMALL GUIDE",
            GuideRefusal::BadSpot => "BAD SPOT",
            GuideRefusal::NotThere => "NOT THERE",
        }
    }
}

// Written out, since a derived text stands in no contract.
impl fmt::Display for GuideRefusal {
    ghost output = { λ refusal. Some (guide_label refusal).name };

    fn fmt<W: fmt::Write>(&self, f: &mut fmt::Formatter<W>) -> fmt::Result {
        f.write_str(self.name())
    }
}

impl Error for GuideRefusal {}
