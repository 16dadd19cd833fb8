// The rules by which a put adds its key: TAKE, LINK and what follows.
ghost use Rattle.std.specs.Prelude.{◌≡◌, ℕ, ◌<◌, ◌&&◌, nat_lt, length, IfSome, Option as Maybe};
ghost use Rattle.records.specs.Records.{Rules, place};
ghost use Rattle.rules.specs.Putting.{MayTake, is_free as is_free_of, take as take_rule, link as link_rule, link_back as link_back_rule, release_new as release_new_rule, put_end as put_end_rule};

use crate::places::{index_of, place_at, release, relink_back};
use guides::Number;
use orders::Order;
use records::{Answer, Damage, Outcome, Phase, Place, Status, Task, go_on};

// The index has at most so many places.
pub const MOST_PLACES: usize = 1024;

fn is_free(status: Status) -> bool
    ensures { result ≡ is_free_of status }
{
    status == Status::Free
}

// The place is there and free.
fn is_free_place<K: Order>(places: &[Place<K>], i: usize) -> bool
    ensures { (k : K) → result ≡ (nat_lt i (length places.now) && is_free_of (place k places.now i).status) }
{
    places.get(i).is_some_and(|place| is_free(place.status))
}

// Some free place from 2 on, or none.
fn free_place<K: Order>(places: &[Place<K>]) -> Option<Number>
    ensures takes { (k : K) → MayTake places.now k result }
    ensures within { IfSome result (λ number. number < length places.now) }
{
    let end = places.len().min(MOST_PLACES);
    let free = (2..end).find(|i| is_free_place(places, *i))?;
    Number::try_from(free).ok()
}

// TAKE takes some free place and fills in the key and both links, unmarked, locked by this station. With no place free
// it releases below's lock and ends with NO ROOM.
pub fn take<K: Order>(places: &mut [Place<K>], me: u8, task: Task<K>) -> Result<Outcome<K>, Damage>
    ensures { (free : Maybe ℕ) × MayTake places.old task.key free × Rules (take_rule places.old task me free) places.old result places.new }
{
    let free = free_place(places);
    let Place { next, .. } = place_at(places, task.at)?;
    match free {
        None => {
            release(places, task.at)?;
            Ok(Outcome::Ends(Answer::NoRoom))
        }
        Some(other) => {
            places[usize::from(other)] = Place {
                key: task.key,
                next,
                prev: task.at,
                marked: false,
                lock: Some(me),
                status: Status::InHand,
            };
            Ok(Outcome::Goes(Task {
                phase: Phase::Link,
                other,
                ..task
            }))
        }
    }
}

// LINK: below's successor becomes the new place, which is chained from here on.
pub fn link<K: Order>(places: &mut [Place<K>], task: Task<K>) -> Result<Outcome<K>, Damage>
    ensures { Rules (link_rule places.old task) places.old result places.new }
{
    let below = index_of(places, task.at)?;
    let new = index_of(places, task.other)?;
    places[below].next = task.other;
    places[new].status = Status::Chained;
    Ok(go_on(Phase::LinkBack, task))
}

// The old successor's predecessor becomes the new place.
pub fn link_back<K: Order>(places: &mut [Place<K>], task: Task<K>) -> Result<Outcome<K>, Damage>
    ensures { Rules (link_back_rule places.old task) places.old result places.new }
{
    relink_back(places, task.other, task.other)?;
    Ok(go_on(Phase::Attach, task))
}

// Release the new place. A rule of its own beside `release_victim`, since each is named by its phase; both are
// `release`.
pub fn release_new<K: Order>(places: &mut [Place<K>], task: Task<K>) -> Result<Outcome<K>, Damage>
    ensures { Rules (release_new_rule places.old task) places.old result places.new }
{
    release(places, task.other)?;
    Ok(go_on(Phase::PutEnd, task))
}

// Release below and end with yes.
pub fn put_end<K: Order>(places: &mut [Place<K>], task: Task<K>) -> Result<Outcome<K>, Damage>
    ensures { Rules (put_end_rule places.old task) places.old result places.new }
{
    release(places, task.at)?;
    Ok(Outcome::Ends(Answer::Yes))
}
