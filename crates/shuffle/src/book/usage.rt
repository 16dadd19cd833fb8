// How the places are used.
use super::Book;
use crate::kind::Kind;
use crate::wrong::Wrong;
use engine::Counts;
use guides::{Beside, Guide, LOW, Side};
use records::{Phase, Status, Task};

// A work in this phase has taken a place and not yet linked it, or unlinked one and not yet laid it aside.
fn has_in_hand<K>(task: &Task<K>) -> bool {
    matches!(
        task.phase,
        Phase::Link | Phase::Detach | Phase::ReleaseVictim | Phase::StrikeEnd
    )
}

impl<K: Kind, G: Guide> Book<K, G> {
    // Some place is free.
    pub(super) fn has_room(&self) -> bool {
        self.places
            .iter()
            .skip(2)
            .any(|place| place.status == Status::Free)
    }

    // The places by their use, as the statuses, the chain and the works under way show it.
    pub(super) fn tally(&self) -> Result<Counts, Wrong> {
        let statuses = || self.places.iter().skip(2).map(|place| place.status);
        Ok(Counts {
            free: statuses().filter(|status| *status == Status::Free).count(),
            in_hand: self
                .stations
                .iter()
                .filter(|station| station.task.as_ref().is_some_and(has_in_hand))
                .count(),
            chained: self.walk()?.length,
            retired: statuses()
                .filter(|status| matches!(status, Status::Retired(_)))
                .count(),
        })
    }

    // No station works: no lock is held, each place is free or chained, and the guide has the chain's places.
    pub(super) fn check_tidy(&self) -> Result<(), Wrong> {
        for (number, place) in (LOW..).zip(&self.places) {
            if place.lock.is_some() {
                return Err(Wrong::LockLeft);
            }
            let chained = match place.status {
                Status::Free => false,
                Status::Chained => true,
                Status::InHand | Status::Retired(_) => return Err(Wrong::PlaceLeft),
            };
            let guided = self.guide.beside(number, Side::Lower) != Beside::Absent;
            if guided != chained {
                return Err(Wrong::GuideAstray);
            }
        }
        let chained = self
            .places
            .iter()
            .filter(|place| place.status == Status::Chained)
            .count();
        if self.walk()?.length.saturating_add(2) != chained {
            return Err(Wrong::PlaceLeft);
        }
        Ok(())
    }
}
