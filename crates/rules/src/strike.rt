// The rules by which a strike takes its key away.
ghost use Rattle.std.specs.Prelude.{◌≡◌};
ghost use Rattle.records.specs.Records.{Rules};
ghost use Rattle.rules.specs.Striking.{take_victim as take_victim_rule, mark as mark_rule, unlink_back as unlink_back_rule, unlink as unlink_rule, release_victim as release_victim_rule, strike_end as strike_end_rule};

use crate::hold::held_by_other;
use crate::places::{index_of, place_at, release, relink_back};
use orders::Order;
use records::{Damage, Outcome, Phase, Place, Status, Task, go_on};

// Take the lock of below's successor, the victim, or wait as LOCK does.
pub fn take_victim<K: Order>(
    places: &mut [Place<K>],
    me: u8,
    task: Task<K>,
) -> Result<Outcome<K>, Damage>
    ensures { Rules (take_victim_rule places.old task me) places.old result places.new }
{
    let Place { next: other, .. } = place_at(places, task.at)?;
    let victim = index_of(places, other)?;
    if held_by_other(me, places[victim].lock) {
        return Ok(Outcome::Waits);
    }
    places[victim].lock = Some(me);
    Ok(Outcome::Goes(Task {
        phase: Phase::Mark,
        other,
        ..task
    }))
}

// Mark it.
pub fn mark<K: Order>(places: &mut [Place<K>], task: Task<K>) -> Result<Outcome<K>, Damage>
    ensures { Rules (mark_rule places.old task) places.old result places.new }
{
    let victim = index_of(places, task.other)?;
    places[victim].marked = true;
    Ok(go_on(Phase::UnlinkBack, task))
}

// Its successor's predecessor becomes below.
pub fn unlink_back<K: Order>(places: &mut [Place<K>], task: Task<K>) -> Result<Outcome<K>, Damage>
    ensures { Rules (unlink_back_rule places.old task) places.old result places.new }
{
    relink_back(places, task.other, task.at)?;
    Ok(go_on(Phase::Unlink, task))
}

// Below's successor becomes its successor; it is in hand from here on.
pub fn unlink<K: Order>(places: &mut [Place<K>], task: Task<K>) -> Result<Outcome<K>, Damage>
    ensures { Rules (unlink_rule places.old task) places.old result places.new }
{
    let below = index_of(places, task.at)?;
    let victim = index_of(places, task.other)?;
    places[below].next = places[victim].next;
    places[victim].status = Status::InHand;
    Ok(go_on(Phase::Detach, task))
}

// Release it.
pub fn release_victim<K: Order>(
    places: &mut [Place<K>],
    task: Task<K>,
) -> Result<Outcome<K>, Damage>
    ensures { Rules (release_victim_rule places.old task) places.old result places.new }
{
    release(places, task.other)?;
    Ok(go_on(Phase::StrikeEnd, task))
}

// Release below and end with yes; the place is retired.
pub fn strike_end<K: Order>(places: &mut [Place<K>], task: Task<K>) -> Result<Outcome<K>, Damage>
    ensures { Rules (strike_end_rule places.old task) places.old result places.new }
{
    let below = index_of(places, task.at)?;
    // The place that is retired has to be there, and is written once the rule is over.
    index_of(places, task.other)?;
    places[below].lock = None;
    Ok(Outcome::Retires(task.other))
}
