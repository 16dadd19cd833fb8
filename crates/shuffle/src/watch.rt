// A work under way as an onlooker sees it.
use crate::keys::{Change, Keys};
use crate::kind::Kind;
use crate::wrong::Wrong;
use records::{Answer, Work};

#[derive(Clone, Copy)]
pub struct Watch {
    pub work: Work,
    // The number of its key in the universe.
    pub key: usize,
    // Its own steps so far.
    pub steps: u64,
    // One of its own steps has added or taken its key.
    pub changed: bool,
    seen: Seen,
}

// What was seen of the contents at some moment since the work's begin.
#[derive(Clone, Copy)]
enum Seen {
    // Its key was there, or was not there.
    Own {
        present: bool,
        absent: bool,
    },
    // These keys were the smallest from a given one on, or there was no such key.
    Smallest {
        from: usize,
        keys: Keys,
        missing: bool,
    },
}

impl Seen {
    fn smallest_from(from: usize) -> Seen {
        Seen::Smallest {
            from,
            keys: Keys::new(),
            missing: false,
        }
    }
}

// Puts and strikes change the contents; the other works only read.
pub fn changes(work: Work) -> bool {
    matches!(work, Work::Put | Work::Strike)
}

impl Watch {
    pub fn new(work: Work, key: usize) -> Watch {
        let seen = match work {
            Work::Put | Work::Strike | Work::Look => Seen::Own {
                present: false,
                absent: false,
            },
            Work::First => Seen::smallest_from(0),
            Work::After => Seen::smallest_from(key.saturating_add(1)),
        };
        Watch {
            work,
            key,
            steps: 0,
            changed: false,
            seen,
        }
    }

    // One more moment of the work's span.
    pub fn note(&mut self, contents: &Keys) {
        let has = contents.has(self.key);
        match &mut self.seen {
            Seen::Own { present, absent } => {
                *present |= has;
                *absent |= !has;
            }
            Seen::Smallest {
                from,
                keys,
                missing,
            } => match contents.smallest_from(*from) {
                Some(key) => keys.add(key),
                None => *missing = true,
            },
        }
    }

    // One more step of its own.
    pub fn count_step(&mut self) {
        self.steps = self.steps.saturating_add(1);
    }

    // The work's own step changed the contents so. It may do that once, and by its own key alone.
    pub fn note_change(&mut self, change: Change) -> Result<(), Wrong> {
        match (self.work, change) {
            (_, Change::Same) => return Ok(()),
            (Work::Look | Work::First | Work::After, _) => return Err(Wrong::ChangedByOther),
            (Work::Put, Change::Added(key)) if key == self.key => {}
            (Work::Strike, Change::Taken(key)) if key == self.key => {}
            (Work::Put | Work::Strike, _) => return Err(Wrong::ChangedOtherKey),
        }
        if self.changed {
            return Err(Wrong::ChangedTwice);
        }
        self.changed = true;
        Ok(())
    }

    // The answer was true at some moment of the work's span. What a yes of a put or strike says is judged apart.
    fn is_true<K: Kind>(&self, answer: Answer<K>) -> bool {
        match &self.seen {
            Seen::Own { present, absent } => match (self.work, answer) {
                (Work::Look, Answer::Yes) | (Work::Put, Answer::No) => *present,
                (Work::Look | Work::Strike, Answer::No) => *absent,
                (Work::Put | Work::Strike, Answer::Yes) | (Work::Put, Answer::NoRoom) => true,
                _ => false,
            },
            Seen::Smallest { keys, missing, .. } => match answer {
                Answer::Found(key) => key.index().is_some_and(|index| keys.has(index)),
                Answer::Missing => *missing,
                Answer::Yes | Answer::No | Answer::NoRoom => false,
            },
        }
    }

    // A put or strike changed the contents exactly if it says yes.
    fn judge_change<K>(&self, answer: &Answer<K>) -> Result<(), Wrong> {
        let says_yes = matches!(answer, Answer::Yes);
        if says_yes && changes(self.work) && !self.changed {
            return Err(Wrong::YesUnchanged);
        }
        if !says_yes && self.changed {
            return Err(Wrong::NoChanged);
        }
        Ok(())
    }

    // Is this the end of the work?
    pub fn judge<K: Kind>(&self, answer: Answer<K>, steps: u64) -> Result<(), Wrong> {
        if steps != self.steps {
            return Err(Wrong::StepCount);
        }
        if !self.is_true(answer) {
            return Err(Wrong::Untrue);
        }
        self.judge_change(&answer)
    }
}
