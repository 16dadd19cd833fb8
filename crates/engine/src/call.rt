// The calls on whole records: open, begin, leave. Places, stations and guide stay parameters of their own, here and at the
// other calls, since the caller lends each at each call.
ghost use Rattle.std.specs.Prelude.{◌≡◌, ◌≤◌, map, length};
ghost use Rattle.std.specs.List.{list_any};
ghost use Rattle.engine.specs.Calling.{bad_count, end_place as end_place_of, vacated, opened_places, opened_stations, opening, Opens};
ghost use Rattle.engine.specs.Calling.{beginning, Begins, locked_by as locked_by_of, leaving, Leaves};

use crate::seat::Seat;
use crate::settle::{end_work, task_of};
use guides::{Guide, GuideRefusal, HIGH, LOW, Number};
use orders::Order;
use records::{MOST_STATIONS, Place, Refusal, Station, Status, Task, Work, first_phase};
use rules::MOST_PLACES;

// Low or High, unmarked, unlocked and linked to the other both ways.
fn end_place<K: Order>(other: Number, place: Place<K>) -> Place<K>
    ensures { result ≡ end_place_of other place }
{
    Place {
        key: place.key,
        next: other,
        prev: other,
        marked: false,
        lock: None,
        status: Status::Chained,
    }
}

// Another place, unlocked and free; the rest is as given.
fn vacate<K: Order>(place: Place<K>) -> Place<K>
    ensures { result ≡ vacated place }
{
    Place {
        lock: None,
        status: Status::Free,
        ..place
    }
}

fn vacate_all<K: Order>(places: &mut [Place<K>])
    ensures { places.new ≡ map vacated places.old }
{
    for place in places.iter_mut() {
        *place = vacate(*place);
    }
}

fn open_places<K: Order>(places: &mut [Place<K>])
    requires { 2 ≤ length places.old }
    ensures { places.new ≡ opened_places places.old }
{
    vacate_all(places);
    places[0] = end_place(HIGH, places[0]);
    places[1] = end_place(LOW, places[1]);
}

// Each station becomes idle.
fn open_stations<K: Order>(stations: &mut [Station<K>])
    ensures { stations.new ≡ opened_stations stations.old }
{
    stations.fill_with(|| Station { task: None });
}

// Opens a book over these places, stations and guide. BAD COUNT: the places are not 2 to 1,024, or the stations not
// 1 to 16. SMALL GUIDE: the guide does not hold so many places.
pub fn open<K: Order, G: Guide>(
    places: &mut [Place<K>],
    stations: &mut [Station<K>],
    guide: &mut G,
) -> Result<(), Refusal>
    ensures { Opens G.Guide.meaning (opening G.Guide.CAPACITY places.old stations.old) places.old stations.old guide.old result places.new stations.new guide.new }
{
    let count = places.len();
    if is_bad_count(count, stations.len()) {
        return Err(Refusal::BadCount);
    }
    if count > G::CAPACITY {
        return Err(Refusal::Guide(GuideRefusal::SmallGuide));
    }
    guide.clear(count)?;
    open_places(places);
    open_stations(stations);
    Ok(())
}

// BAD COUNT: the places are not 2 to 1,024, or the stations not 1 to 16.
fn is_bad_count(places: usize, stations: usize) -> bool
    ensures { result ≡ bad_count places stations }
{
    !(2..=MOST_PLACES).contains(&places) || !(1..=MOST_STATIONS).contains(&stations)
}

// Begins a work, with a key that first ignores. NO STATION: there is no such station. BUSY: a work is under way.
// Station, work and key are three parameters, here and above: the rules of the call name them one by one.
pub fn begin<K: Order>(
    stations: &mut [Station<K>],
    station: usize,
    work: Work,
    key: K,
) -> Result<(), Refusal>
    ensures { Begins (beginning stations.old station work key) stations.old result stations.new }
{
    if task_of(stations, station)?.is_some() {
        return Err(Refusal::Busy);
    }
    stations[station] = Station {
        task: Some(Task {
            work,
            key,
            phase: first_phase(work),
            at: LOW,
            other: LOW,
            downs: 0,
            steps: 0,
            awaited: false,
        }),
    };
    Ok(())
}

// Station i holds the lock.
fn locked_by(i: u8, lock: Option<u8>) -> bool
    ensures { result ≡ locked_by_of i lock }
{
    lock == Some(i)
}

// Station i holds the lock of some place.
fn holds_lock<K: Order>(places: &[Place<K>], i: u8) -> bool
    ensures { result ≡ list_any (λ place. locked_by_of i place.lock) places.now }
{
    places.iter().any(|place| locked_by(i, place.lock))
}

// Ends a work without answer. NO STATION: there is no such station. IDLE: nothing is under way. HOLDS LOCK: the station
// has a lock.
pub fn leave<K: Order>(
    places: &mut [Place<K>],
    stations: &mut [Station<K>],
    station: usize,
) -> Result<(), Refusal>
    ensures { Leaves (leaving places.old stations.old station) places.old stations.old result places.new stations.new }
{
    let task = task_of(stations, station)?.ok_or(Refusal::Idle)?;
    let me = Seat::new(station);
    if holds_lock(places, me.number) {
        return Err(Refusal::HoldsLock);
    }
    end_work(places, stations, me, task);
    Ok(())
}
