// The calls on one book, in random order.
use crate::book::Book;
use crate::dice::Dice;
use crate::kind::{Kind, MOST_KEYS};
use crate::plan::Plan;
use crate::wrong::Wrong;
use guides::Guide;
use std::alloc::{AllocError, Global};
use std::fmt;
use std::ops::AddAssign;
use thiserror::Error;

// What was done on a book.
#[derive(Clone, Copy, Default)]
pub struct Done {
    calls: u64,
    // The accepted steps.
    steps: u64,
}

impl AddAssign for Done {
    fn add_assign(&mut self, more: Done) {
        self.calls = self.calls.saturating_add(more.calls);
        self.steps = self.steps.saturating_add(more.steps);
    }
}

impl fmt::Display for Done {
    fn fmt<W: fmt::Write>(&self, f: &mut fmt::Formatter<W>) -> fmt::Result {
        write!(f, "{} calls, {} steps", self.calls, self.steps)
    }
}

// What is wrong, and at which call.
#[derive(Clone, Copy, Debug, Error)]
#[error("call {call}: {wrong}")]
pub struct Stop {
    call: u64,
    wrong: Wrong,
}

// So many calls, and then no work is begun any more.
const CALLS: u64 = 600;

// By this call every work has ended.
const MOST_CALLS: u64 = 10_000;

// A book, and how its calls are dealt.
#[derive(Drop)]
pub struct Round<K, G> {
    book: Book<K, G>,
    plan: Plan,
    dice: Dice,
    // The station that made the last call, station 0 aside.
    last: usize,
    calls: u64,
}

impl<K: Kind, G: Guide + Drop> Round<K, G> {
    // A round of its own for the seed.
    pub fn new(heap: Global, seed: u64) -> Result<Round<K, G>, AllocError> {
        let mut dice = Dice::new(seed);
        let plan = Plan::new(&mut dice);
        Ok(Round {
            book: Book::new(heap, plan.stations, plan.places)?,
            plan,
            dice,
            last: 0,
            calls: 0,
        })
    }
}

impl<K: Kind, G: Guide> Round<K, G> {
    // Plays the round and says what was done.
    pub fn play(&mut self) -> Result<Done, Stop> {
        let played = self.play_all();
        let call = self.calls;
        played.map_err(|wrong| Stop { call, wrong })?;
        Ok(Done {
            calls: call,
            steps: self.book.steps(),
        })
    }

    // Opens the book, and then some hundreds of calls and steps until every work has ended.
    fn play_all(&mut self) -> Result<(), Wrong> {
        self.book.open()?;
        for _ in 0..CALLS {
            let station = self.next_station();
            self.call(station)?;
            self.check()?;
        }
        for _ in CALLS..MOST_CALLS {
            if self.book.is_idle() {
                return Ok(());
            }
            let station = self.dice.roll(self.plan.stations);
            self.book.step(station)?;
            self.check()?;
        }
        Err(Wrong::Unfinished)
    }

    // The call that was made is followed by the checks.
    fn check(&mut self) -> Result<(), Wrong> {
        self.book.check()?;
        self.calls = self.calls.saturating_add(1);
        Ok(())
    }

    // The station whose turn it is, while works are begun.
    fn next_station(&mut self) -> usize {
        if self.plan.is_slow_turn(&mut self.dice) {
            return 0;
        }
        self.last = self.plan.next_station(&mut self.dice, self.last);
        self.last
    }

    // A station that works makes a step most often, one that does not begins a work. The numbers are no kinds of call
    // but shares of 160, by which the calls are drawn.
    fn call(&mut self, station: usize) -> Result<(), Wrong> {
        let works = self.book.works(station);
        match self.dice.roll(160) {
            0..=1 => self.book.leave(station),
            2..=3 => self.book.step(station),
            4 => self.begin(station),
            5..=6 => self.list(),
            7..=10 => self.book.counts(),
            11..=20 => self.book.mend(),
            21 => self.call_beyond(),
            _ if works => self.book.step(station),
            _ => self.begin(station),
        }
    }

    fn begin(&mut self, station: usize) -> Result<(), Wrong> {
        let work = self.plan.some_work(&mut self.dice, station);
        let key = self.plan.some_key(&mut self.dice);
        self.book.begin(station, work, key)
    }

    // A list with positions enough, or with about as many as there are keys.
    fn list(&mut self) -> Result<(), Wrong> {
        let positions = if self.dice.hits(2) {
            MOST_KEYS
        } else {
            self.dice.roll(self.book.count().saturating_add(2))
        };
        self.book.list(positions)
    }

    // A call for a station that there is not, drawn in equal shares.
    fn call_beyond(&mut self) -> Result<(), Wrong> {
        let beyond = if self.dice.hits(2) {
            0
        } else {
            self.dice.roll(300)
        };
        let station = self.book.size().saturating_add(beyond);
        match self.dice.roll(3) {
            0 => self.book.leave(station),
            1 => self.book.step(station),
            _ => self.begin(station),
        }
    }
}
