// The rules by which a look, an after and a first read the chain: ON and FIRST.
ghost use Rattle.std.specs.Prelude.{◌≡◌};
ghost use Rattle.rules.specs.Reading.{on_look as on_look_rule, on_after as on_after_rule, first as first_rule, first_next};

use crate::find::standing;
use crate::places::place_at;
use guides::{HIGH, LOW};
use orders::Order;
use records::{Answer, Damage, Outcome, Phase, Place, Task, go_on, go_to};
use std::cmp::Ordering;

// ON of a look: a key below k moves to the successor; above k ends with no; key k ends with yes if unmarked, else no.
pub fn on_look<K: Order>(places: &[Place<K>], task: Task<K>) -> Result<Outcome<K>, Damage>
    ensures { result ≡ on_look_rule K.Order.rank places.now task }
{
    let Place {
        key,
        next,
        marked,
        ..
    } = place_at(places, task.at)?;
    match standing(task.at, key, task.key) {
        Ordering::Less => Ok(go_to(next, task)),
        Ordering::Equal if !marked => Ok(Outcome::Ends(Answer::Yes)),
        Ordering::Equal | Ordering::Greater => Ok(Outcome::Ends(Answer::No)),
    }
}

// ON of an after: k or below moves to the successor; High ends with none; another unmarked place ends with its key;
// a marked one goes back to ENTER.
pub fn on_after<K: Order>(places: &[Place<K>], task: Task<K>) -> Result<Outcome<K>, Damage>
    ensures { result ≡ on_after_rule K.Order.rank places.now task }
{
    let Place {
        key,
        next,
        marked,
        ..
    } = place_at(places, task.at)?;
    match standing(task.at, key, task.key) {
        Ordering::Less | Ordering::Equal => Ok(go_to(next, task)),
        Ordering::Greater if task.at == HIGH => Ok(Outcome::Ends(Answer::Missing)),
        Ordering::Greater if marked => Ok(go_on(Phase::Enter, task)),
        Ordering::Greater => Ok(Outcome::Ends(Answer::Found(key))),
    }
}

// FIRST: Low's successor becomes at; High ends with none.
pub fn first<K: Order>(places: &[Place<K>], task: Task<K>) -> Result<Outcome<K>, Damage>
    ensures { result ≡ first_rule places.now task }
{
    let Place { next: at, .. } = place_at(places, LOW)?;
    if at == HIGH {
        return Ok(Outcome::Ends(Answer::Missing));
    }
    Ok(Outcome::Goes(Task {
        phase: Phase::FirstNext,
        at,
        ..task
    }))
}

// The next step: an unmarked at ends with its key, else FIRST follows.
pub fn first_next<K: Order>(places: &[Place<K>], task: Task<K>) -> Result<Outcome<K>, Damage>
    ensures { result ≡ first_next places.now task }
{
    let Place { key, marked, .. } = place_at(places, task.at)?;
    if marked {
        return Ok(go_on(Phase::First, task));
    }
    Ok(Outcome::Ends(Answer::Found(key)))
}
