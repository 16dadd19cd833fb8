// The rules by which a work finds its place: ENTER, DOWN, CHECK, BACK, SEEK.
ghost use Rattle.std.specs.Prelude.{◌≡◌};
ghost use Rattle.guides.specs.declared.answer.Beside.{Beside as Besides};
ghost use Rattle.records.specs.Records.{standing as standing_of};
ghost use Rattle.rules.specs.Finding.{enter as enter_rule, lead as lead_rule, down as down_rule, MayStand};
ghost use Rattle.rules.specs.Finding.{check as check_rule, back_look as back_look_rule, back_after as back_after_rule, back_change as back_change_rule, seek as seek_rule};

use crate::places::place_at;
use guides::{Beside, Guide, HIGH, LOW, Number, Side};
use orders::Order;
use records::{Answer, Damage, Outcome, Phase, Place, Task, go_on, go_to};
use std::cmp::Ordering;

// DOWN is taken at most so many times since ENTER.
const MOST_DOWNS: u8 = 64;

// How a place stands to a key. Low is below every key, and High above.
pub fn standing<K: Order>(number: Number, own: K, key: K) -> Ordering
    ensures { result ≡ standing_of K.Order.rank number own key }
{
    match number {
        LOW => Ordering::Less,
        HIGH => Ordering::Greater,
        _ => own.compare(key),
    }
}

// ENTER: at becomes the guide's start. DOWN follows.
pub fn enter<K: Order>(start: Number, task: Task<K>) -> Outcome<K>
    ensures { result ≡ enter_rule start task }
{
    Outcome::Goes(Task {
        phase: Phase::Down,
        at: start,
        downs: 0,
        ..task
    })
}

// A place answered becomes at, end keeps at, absent makes at Low.
// CHECK follows end, absent and the 64th DOWN since ENTER. Otherwise DOWN follows.
fn lead<K: Order>(beside: Beside, task: Task<K>) -> Outcome<K>
    ensures { result ≡ lead_rule beside task }
{
    let phase = Phase::Check;
    match beside {
        Beside::Absent => Outcome::Goes(Task {
            phase,
            at: LOW,
            ..task
        }),
        Beside::End => go_on(phase, task),
        Beside::Stands(at) if task.downs >= MOST_DOWNS - 1 => {
            Outcome::Goes(Task { phase, at, ..task })
        }
        Beside::Stands(at) => Outcome::Goes(Task {
            at,
            downs: task.downs + 1,
            ..task
        }),
    }
}

// DOWN: if at has key k, CHECK follows. Otherwise beside is called for the side on which k stands.
pub fn down<K: Order, G: Guide>(
    places: &[Place<K>],
    guide: &G,
    task: Task<K>,
) -> Result<Outcome<K>, Damage>
    ensures { (beside : Besides) × MayStand K.Order.rank places.now task (G.Guide.meaning guide.now).sequence beside × (result ≡ down_rule K.Order.rank places.now task beside) }
{
    let Place { key, .. } = place_at(places, task.at)?;
    match standing(task.at, key, task.key) {
        Ordering::Less => Ok(lead(guide.beside(task.at, Side::Higher), task)),
        Ordering::Equal => Ok(go_on(Phase::Check, task)),
        Ordering::Greater => Ok(lead(guide.beside(task.at, Side::Lower), task)),
    }
}

// CHECK: a marked at becomes Low. BACK follows.
pub fn check<K: Order>(places: &[Place<K>], task: Task<K>) -> Result<Outcome<K>, Damage>
    ensures { result ≡ check_rule places.now task }
{
    let Place { marked, .. } = place_at(places, task.at)?;
    let at = if marked { LOW } else { task.at };
    Ok(Outcome::Goes(Task {
        phase: Phase::Back,
        at,
        ..task
    }))
}

// BACK of a look: key k unmarked ends with yes; key k marked, or a key above k, moves to the predecessor;
// a key below k goes to ON.
pub fn back_look<K: Order>(places: &[Place<K>], task: Task<K>) -> Result<Outcome<K>, Damage>
    ensures { result ≡ back_look_rule K.Order.rank places.now task }
{
    let Place {
        key,
        prev,
        marked,
        ..
    } = place_at(places, task.at)?;
    match standing(task.at, key, task.key) {
        Ordering::Equal if !marked => Ok(Outcome::Ends(Answer::Yes)),
        Ordering::Equal | Ordering::Greater => Ok(go_to(prev, task)),
        Ordering::Less => Ok(go_on(Phase::On, task)),
    }
}

// BACK of an after: a key above k moves to the predecessor, else ON follows.
pub fn back_after<K: Order>(places: &[Place<K>], task: Task<K>) -> Result<Outcome<K>, Damage>
    ensures { result ≡ back_after_rule K.Order.rank places.now task }
{
    let Place { key, prev, .. } = place_at(places, task.at)?;
    match standing(task.at, key, task.key) {
        Ordering::Greater => Ok(go_to(prev, task)),
        Ordering::Less | Ordering::Equal => Ok(go_on(Phase::On, task)),
    }
}

// BACK of a put or a strike: k or above moves to the predecessor, else SEEK follows.
pub fn back_change<K: Order>(places: &[Place<K>], task: Task<K>) -> Result<Outcome<K>, Damage>
    ensures { result ≡ back_change_rule K.Order.rank places.now task }
{
    let Place { key, prev, .. } = place_at(places, task.at)?;
    match standing(task.at, key, task.key) {
        Ordering::Equal | Ordering::Greater => Ok(go_to(prev, task)),
        Ordering::Less => Ok(go_on(Phase::Seek, task)),
    }
}

// SEEK: if the successor's key is below k, the successor becomes at. Otherwise LOCK follows.
pub fn seek<K: Order>(places: &[Place<K>], task: Task<K>) -> Result<Outcome<K>, Damage>
    ensures { result ≡ seek_rule K.Order.rank places.now task }
{
    let Place { next, .. } = place_at(places, task.at)?;
    let Place { key, .. } = place_at(places, next)?;
    match standing(next, key, task.key) {
        Ordering::Less => Ok(go_to(next, task)),
        Ordering::Equal | Ordering::Greater => Ok(go_on(Phase::Lock, task)),
    }
}
