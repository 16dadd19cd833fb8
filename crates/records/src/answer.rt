// What the calls answer and why they refuse.
ghost use Rattle.std.specs.Prelude.{◌≡◌, Some};
ghost use Rattle.records.specs.declared.answer.Damage.TheVariants.{Guide as GuideDamage};
ghost use Rattle.records.specs.declared.answer.Refusal.TheVariants.{Damaged, Guide as GuideRefused};
ghost use Rattle.records.specs.Labels.{refusal_label, answer_label, stepped_word};

use guides::GuideRefusal;
use std::error::Error;
use std::fmt;

// The answer that ends a work.
#[derive(Clone, Copy, PartialEq, Eq, Debug)]
pub enum Answer<K> {
    Yes,
    No,
    // The smallest key, or the smallest above the given one.
    Found(K),
    // There is no such key.
    Missing,
    // A put found no free place.
    NoRoom,
}

// What one step did.
#[derive(Clone, Copy, PartialEq, Eq, Debug)]
pub enum Stepped<K> {
    Moved,
    // Another station holds the lock that the step wants.
    Waits,
    // The work's answer, and the number of its own steps.
    Ended(Answer<K>, u64),
}

// What a step found damaged.
#[derive(Clone, Copy, PartialEq, Eq, Debug)]
pub enum Damage {
    // The step needs a place number that is not among the places.
    NoPlace,
    // The guide refused.
    Guide(GuideRefusal),
    // High is not reached from Low within as many places as there are.
    Endless,
}

// Why a call was refused. A refused call alters nothing.
#[derive(Clone, Copy, PartialEq, Eq, Debug)]
pub enum Refusal {
    BadCount,
    // The guide's own refusal.
    Guide(GuideRefusal),
    NoStation,
    Busy,
    Idle,
    HoldsLock,
    ShortList,
    Damaged(Damage),
}

// A guide's refusal is damage to the step that meets it. This conversion and the two below are written out, since a
// derived one says in no contract what it gives.
impl From<GuideRefusal> for Damage {
    ghost from_gives = { λ refusal r. r ≡ GuideDamage refusal };

    fn from(refusal: GuideRefusal) -> Damage {
        Damage::Guide(refusal)
    }
}

impl From<Damage> for Refusal {
    ghost from_gives = { λ damage r. r ≡ Damaged damage };

    fn from(damage: Damage) -> Refusal {
        Refusal::Damaged(damage)
    }
}

impl From<GuideRefusal> for Refusal {
    ghost from_gives = { λ refusal r. r ≡ GuideRefused refusal };

    fn from(inner: GuideRefusal) -> Refusal {
        Refusal::Guide(inner)
    }
}

impl<K> Answer<K> {
    // The number of the answer, where it has one.
    pub fn number(&self) -> Option<u8>
        ensures { result ≡ (answer_label self.now).number }
    {
        match self {
            Answer::NoRoom => Some(12),
            Answer::Yes | Answer::No | Answer::Found(_) | Answer::Missing => None,
        }
    }

    // The word of the answer.
    pub fn word(&self) -> &'static str
        ensures { result.now ≡ (answer_label self.now).word }
    {
        match self {
            Answer::Yes => "yes",
            Answer::No => "no",
            Answer::Found(_) => "key",
            Answer::Missing => "none",
            Answer::NoRoom => "no-room",
        }
    }
}

impl<K> Stepped<K> {
    // The word of what the step did.
    pub fn word(&self) -> &'static str
        ensures { result.now ≡ stepped_word self.now }
    {
        match self {
            Stepped::Moved => "moved",
            Stepped::Waits => "waits",
            Stepped::Ended(answer, _) => answer.word(),
        }
    }
}

impl Refusal {
    // The refusal's number.
    pub fn number(self) -> u8
        ensures { result ≡ (refusal_label self).number }
    {
        match self {
            Refusal::BadCount => 1,
            Refusal::Guide(refusal) => refusal.number(),
            Refusal::NoStation => 3,
            Refusal::Busy => 4,
            Refusal::Idle => 5,
            Refusal::HoldsLock => 6,
            Refusal::ShortList => 7,
            Refusal::Damaged(_) => 8,
        }
    }

    // The refusal's name.
    pub fn name(self) -> &'static str
        ensures { result.now ≡ (refusal_label self).name }
    {
        match self {
            Refusal::BadCount => "BAD COUNT",
            Refusal::Guide(refusal) => refusal.name(),
            Refusal::NoStation => "NO STATION",
            Refusal::Busy => "BUSY",
            Refusal::Idle => "IDLE",
            Refusal::HoldsLock => "HOLDS LOCK",
            Refusal::ShortList => "SHORT LIST",
            Refusal::Damaged(_) => "DAMAGED",
        }
    }
}

// Written out, since a derived text stands in no contract.
impl fmt::Display for Refusal {
    ghost output = { λ refusal. Some (refusal_label refusal).name };

    fn fmt<W: fmt::Write>(&self, f: &mut fmt::Formatter<W>) -> fmt::Result {
        f.write_str(self.name())
    }
}

impl Error for Refusal {}
