// The rules by which a put or a strike takes below's lock and sees whether below is still right: LOCK, VALID.
ghost use Rattle.std.specs.Prelude.{◌≡◌};
ghost use Rattle.records.specs.Records.{Rules, held_by_other as held_by_other_of};
ghost use Rattle.rules.specs.Holding.{lock as lock_rule, valid as valid_rule};

use crate::find::standing;
use crate::places::{index_of, place_at, release};
use orders::Order;
use records::{Answer, Damage, Outcome, Phase, Place, Task, Work, go_on, start_over};
use std::cmp::Ordering;

// Another station than `me` holds the lock.
pub fn held_by_other(me: u8, lock: Option<u8>) -> bool
    ensures { result ≡ held_by_other_of me lock }
{
    lock.is_some_and(|holder| holder != me)
}

// LOCK: if another station holds below's lock, the step waits. Otherwise it takes the lock. VALID follows.
pub fn lock<K: Order>(places: &mut [Place<K>], me: u8, task: Task<K>) -> Result<Outcome<K>, Damage>
    ensures { Rules (lock_rule places.old task me) places.old result places.new }
{
    let below = index_of(places, task.at)?;
    if held_by_other(me, places[below].lock) {
        return Ok(Outcome::Waits);
    }
    places[below].lock = Some(me);
    Ok(go_on(Phase::Valid, task))
}

// VALID: if below is marked or its successor's key is under k, the lock is released and ENTER follows.
// Put on a successor with key k, and strike on one above k, release the lock and end with no.
// Otherwise put goes to TAKE, and strike goes on to take the successor's lock.
pub fn valid<K: Order>(places: &mut [Place<K>], task: Task<K>) -> Result<Outcome<K>, Damage>
    ensures { Rules (valid_rule places.old task K.Order.rank) places.old result places.new }
{
    let Place { next, marked, .. } = place_at(places, task.at)?;
    let Place { key, .. } = place_at(places, next)?;
    match (task.work, marked, standing(next, key, task.key)) {
        (Work::Put, false, Ordering::Greater) => Ok(go_on(Phase::Take, task)),
        (Work::Strike, false, Ordering::Equal) => Ok(go_on(Phase::TakeVictim, task)),
        (Work::Put, false, Ordering::Equal) | (Work::Strike, false, Ordering::Greater) => {
            release(places, task.at)?;
            Ok(Outcome::Ends(Answer::No))
        }
        (Work::Put | Work::Strike, true, _) | (Work::Put | Work::Strike, false, Ordering::Less) => {
            release(places, task.at)?;
            Ok(go_on(Phase::Enter, task))
        }
        (Work::Look | Work::First | Work::After, _, _) => Ok(start_over(task)),
    }
}
