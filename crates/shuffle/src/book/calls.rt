// The calls open, begin, step, leave and mend, each with what it has to answer.
use super::Book;
use crate::kind::Kind;
use crate::watch::Watch;
use crate::wrong::Wrong;
use engine::{begin, leave, mend, open, step};
use guides::Guide;
use records::{Answer, Refusal, Stepped, Work};

// What is known of a work's step before it is made.
#[derive(Clone, Copy)]
struct Before {
    // Another station holds the lock that the step wants.
    held_up: bool,
    // A put may find no room: every place is in use.
    full: bool,
    // A look has ended within so many steps.
    most_steps: u64,
}

impl Before {
    // A step waits exactly if its work is held up, and a look never is.
    fn judge_waiting<K>(&self, watch: &Watch, stepped: &Stepped<K>) -> Result<(), Wrong> {
        let waits = matches!(stepped, Stepped::Waits);
        match watch.work {
            Work::Look if waits => Err(Wrong::SlowLook),
            _ if waits && !self.held_up => Err(Wrong::WaitsFreely),
            _ if !waits && self.held_up => Err(Wrong::MovesHeldUp),
            _ => Ok(()),
        }
    }

    // A look goes on only if it may take more steps.
    fn judge_going_on(&self, watch: &Watch) -> Result<(), Wrong> {
        match watch.work {
            Work::Look if watch.steps >= self.most_steps => Err(Wrong::SlowLook),
            _ => Ok(()),
        }
    }
}

impl<K: Kind, G: Guide> Book<K, G> {
    pub fn open(&mut self) -> Result<(), Wrong> {
        open(&mut self.places, &mut self.stations, &mut self.guide).map_err(|_| Wrong::NotOpened)
    }

    // Begins a work.
    pub fn begin(&mut self, station: usize, work: Work, key: usize) -> Result<(), Wrong> {
        let due = self.may_begin(station);
        if begin(&mut self.stations, station, work, K::key(key)) != due {
            return Err(Wrong::Refusal);
        }
        if due.is_ok() {
            self.onlooker.set(station, Some(Watch::new(work, key)));
        }
        self.see()
    }

    // Makes a step.
    pub fn step(&mut self, station: usize) -> Result<(), Wrong> {
        match self.may_step(station) {
            Ok(_) => self.step_working(station),
            Err(due) => self.step_idle(station, due),
        }
    }

    // Leaves a work, which has to have changed nothing.
    pub fn leave(&mut self, station: usize) -> Result<(), Wrong> {
        let due = self.may_leave(station);
        if leave(&mut self.places, &mut self.stations, station).err() != due.err() {
            return Err(Wrong::Refusal);
        }
        if let Ok(watch) = due {
            self.onlooker.set(station, None);
            if watch.changed {
                return Err(Wrong::LeftAfterChange);
            }
        }
        self.see()
    }

    // Mends the guide.
    pub fn mend(&mut self) -> Result<(), Wrong> {
        let _ = mend(&mut self.guide);
        self.see()
    }

    // The work of a station, if one is under way. NO STATION: there is no such station.
    fn work_of(&self, station: usize) -> Result<Option<Watch>, Refusal> {
        if station >= self.stations.len() {
            return Err(Refusal::NoStation);
        }
        Ok(self.onlooker.watch(station).copied())
    }

    // A work may begin where none is under way.
    fn may_begin(&self, station: usize) -> Result<(), Refusal> {
        match self.work_of(station)? {
            Some(_) => Err(Refusal::Busy),
            None => Ok(()),
        }
    }

    // A work may make a step where one is under way.
    fn may_step(&self, station: usize) -> Result<Watch, Refusal> {
        self.work_of(station)?.ok_or(Refusal::Idle)
    }

    // A work may be left while it holds no lock.
    fn may_leave(&self, station: usize) -> Result<Watch, Refusal> {
        let watch = self.may_step(station)?;
        if self.holds_some(station) {
            return Err(Refusal::HoldsLock);
        }
        Ok(watch)
    }

    // A step that has to be refused for this cause.
    fn step_idle(&mut self, station: usize, due: Refusal) -> Result<(), Wrong> {
        if self.step_some(station).err() != Some(due) {
            return Err(Wrong::Refusal);
        }
        self.see()
    }

    // A step of a station that works.
    fn step_working(&mut self, station: usize) -> Result<(), Wrong> {
        let before = self.foresee(station)?;
        let stepped = self.step_some(station).map_err(|_| Wrong::StepRefused)?;
        self.steps = self.steps.saturating_add(1);
        let found = self.walk()?;
        self.onlooker.see_step(station, found.keys)?;
        self.judge_step(station, before, stepped)
    }

    fn step_some(&mut self, station: usize) -> Result<Stepped<K>, Refusal> {
        step(
            &mut self.places,
            &mut self.stations,
            &mut self.guide,
            station,
        )
    }

    fn foresee(&self, station: usize) -> Result<Before, Wrong> {
        let task = self.stations.get(station).and_then(|found| found.task);
        let task = task.ok_or(Wrong::Stations)?;
        // `as`: see main.rt.
        let places = self.places.len() as u64;
        Ok(Before {
            held_up: self.is_held_up(station, &task)?,
            full: !self.has_room(),
            most_steps: places.saturating_mul(2).saturating_add(66),
        })
    }

    // What a step did, with the work as the step left it.
    fn judge_step(
        &mut self,
        station: usize,
        before: Before,
        stepped: Stepped<K>,
    ) -> Result<(), Wrong> {
        let watch = self.onlooker.watch(station).ok_or(Wrong::Stations)?;
        before.judge_waiting(watch, &stepped)?;
        match stepped {
            Stepped::Moved | Stepped::Waits => before.judge_going_on(watch),
            Stepped::Ended(answer, steps) => {
                self.judge_end(watch, before, answer, steps)?;
                self.onlooker.set(station, None);
                Ok(())
            }
        }
    }

    // A step that ends its work: NO ROOM wants every place in use and the key missing.
    fn judge_end(
        &self,
        watch: &Watch,
        before: Before,
        answer: Answer<K>,
        steps: u64,
    ) -> Result<(), Wrong> {
        if matches!(answer, Answer::NoRoom)
            && (!before.full || self.onlooker.contents.has(watch.key))
        {
            return Err(Wrong::RoomLeft);
        }
        watch.judge(answer, steps)
    }
}
