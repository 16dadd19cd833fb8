// The records of the places, by number.
ghost use Rattle.std.specs.Prelude.{◌≡◌, ◌<◌, length, IfOk, OnErr, Ok as Fine};
ghost use Rattle.records.specs.Records.{needing, place, released, with_prev, written};

use guides::Number;
use orders::Order;
use records::{Damage, Place};

// The record of a place. DAMAGED: the place is not among the places.
pub fn place_at<K: Order>(places: &[Place<K>], number: Number) -> Result<Place<K>, Damage>
    ensures { (k : K) → result ≡ needing k places.now number (λ place. Fine place) }
{
    places
        .get(usize::from(number))
        .copied()
        .ok_or(Damage::NoPlace)
}

// The index at which a place is written; the library's clauses do not tell what a slice holds after a write through its
// get_mut. DAMAGED: the place is not among the places.
pub fn index_of<K: Order>(places: &[Place<K>], number: Number) -> Result<usize, Damage>
    ensures found { (k : K) → result ≡ needing k places.now number (λ place. Fine number) }
    ensures within { IfOk result (λ index. index < length places.now) }
{
    let index = usize::from(number);
    if index < places.len() {
        Ok(index)
    } else {
        Err(Damage::NoPlace)
    }
}

// The lock of a place is released. DAMAGED: the place is not among the places.
pub fn release<K: Order>(places: &mut [Place<K>], number: Number) -> Result<(), Damage>
    ensures answer { (k : K) → result ≡ needing k places.old number (λ place. Fine tt) }
    ensures places { (k : K) → places.new ≡ released k number places.old }
{
    let index = index_of(places, number)?;
    places[index].lock = None;
    Ok(())
}

// The successor of a place gets this predecessor. DAMAGED: the place or its successor is not among the places.
pub fn relink_back<K: Order>(
    places: &mut [Place<K>],
    number: Number,
    prev: Number,
) -> Result<(), Damage>
    ensures answer { (k : K) → result ≡ needing k places.old number (λ own. needing k places.old own.next (λ next. Fine tt)) }
    ensures places { (k : K) → IfOk result (λ done. places.new ≡ written k (place k places.old number).next (with_prev prev) places.old) }
    ensures kept { OnErr result (places.new ≡ places.old) }
{
    let Place { next, .. } = place_at(places, number)?;
    let next = index_of(places, next)?;
    places[next].prev = prev;
    Ok(())
}
