// The contents of a book, written into the caller's keys.
ghost use Rattle.std.specs.Prelude.{◌≡◌, ◌≤◌, ◌++◌, length, drop, Ok as Fine, Err as Fails, MatchResult};
ghost use Rattle.engine.specs.Contents.{reaches_high, listing, Lists};
ghost use Rattle.engine.specs.Walking.{keys_from, Meets};

use guides::{HIGH, Number};
use orders::Order;
use records::{Damage, Place, Refusal};

// How many keys the walk from a place on meets before High. DAMAGED: High is not reached within as many places as there
// are, or a place number is not among the places.
fn count_keys<K: Order>(places: &[Place<K>], from: Number) -> Result<usize, Damage>
    ensures { MatchResult result (Meets places.now from) (λ damage. reaches_high (length places.now) places.now from ≡ Fails damage) }
{
    let mut at = from;
    let mut count = 0;
    // A loop, since each place names the next one.
    for _ in places {
        if at == HIGH {
            return Ok(count);
        }
        let Place { marked, next, .. } = *places.get(usize::from(at)).ok_or(Damage::NoPlace)?;
        if !marked {
            count += 1;
        }
        at = next;
    }
    Err(Damage::Endless)
}

// Writes the keys that the walk from a place on meets into the first of the given ones, where it reaches High and there
// is room for them. A walk beside the one that counts: one for both would take what is done with a key as a closure, with
// a clause on all its calls, and be longer.
fn write_keys<K: Order>(places: &[Place<K>], from: Number, keys: &mut [K])
    requires { (reaches_high (length places.now) places.now from ≡ Fine tt) × (length (keys_from places.now from) ≤ length keys.old) }
    ensures { keys.new ≡ keys_from places.now from ++ drop (length (keys_from places.now from)) keys.old }
{
    let mut at = from;
    let mut count = 0;
    // A loop, since each place names the next one.
    for _ in places {
        if at == HIGH {
            return;
        }
        let Some(place) = places.get(usize::from(at)) else {
            return;
        };
        if !place.marked {
            keys[count] = place.key;
            count += 1;
        }
        at = place.next;
    }
}

// Writes the contents of the book into the given keys and answers their number; the rest stays. DAMAGED: High is not
// reached within as many places as there are, or a place number is not among the places. SHORT LIST: fewer positions
// than keys.
pub fn list<K: Order>(places: &[Place<K>], keys: &mut [K]) -> Result<usize, Refusal>
    ensures { Lists (listing places.now (length keys.old)) keys.old result keys.new }
{
    let low = places.first().ok_or(Damage::NoPlace)?;
    let count = count_keys(places, low.next)?;
    if keys.len() < count {
        return Err(Refusal::ShortList);
    }
    write_keys(places, low.next, keys);
    Ok(count)
}
