// Which stations are held up by the locks of others.
use super::Book;
use crate::kind::Kind;
use crate::watch::changes;
use crate::wrong::Wrong;
use guides::{Guide, Number};
use records::{Phase, Station, Task};

impl<K: Kind, G: Guide> Book<K, G> {
    // Another station than this one holds the place's lock.
    fn is_held_by_other(&self, place: Number, station: usize) -> Result<bool, Wrong> {
        let lock = self.place(place)?.lock;
        Ok(lock.is_some_and(|holder| usize::from(holder) != station))
    }

    // The next step of the station's work wants a lock that another station holds.
    pub(super) fn is_held_up(&self, station: usize, task: &Task<K>) -> Result<bool, Wrong> {
        match task.phase {
            Phase::Lock => self.is_held_by_other(task.at, station),
            Phase::TakeVictim => self.is_held_by_other(self.place(task.at)?.next, station),
            _ => Ok(false),
        }
    }

    // The station holds the lock of some place.
    pub(super) fn holds_some(&self, station: usize) -> bool {
        let mut holders = self.places.iter().filter_map(|place| place.lock);
        holders.any(|holder| usize::from(holder) == station)
    }

    // Puts or strikes are under way, and all of them are held up. A loop, since what is found out of a work may fail,
    // and `any` and `all` know no `?`.
    pub(super) fn is_stuck(&self) -> Result<bool, Wrong> {
        let mut stuck = false;
        for (i, Station { task }) in self.stations.iter().enumerate() {
            if let Some(task) = task
                && changes(task.work)
            {
                if !self.is_held_up(i, task)? {
                    return Ok(false);
                }
                stuck = true;
            }
        }
        Ok(stuck)
    }
}
