// What a step does with its station once the rule has decided, and how retired places become free.
// Places and stations stay two parameters: the caller lends both at each call, so a struct of the two would be made
// anew in each call only to be taken apart by the functions below, of which most need one of them.
ghost use Rattle.std.specs.Prelude.{◌≡◌, ◌<◌, map, length, MatchResult, slice_set};
ghost use Rattle.engine.specs.Calling.{FindsStation, FindsNone};
ghost use Rattle.records.specs.Records.{written, with_status};
ghost use Rattle.engine.specs.Settling.{idle, anyone as anyone_of, retired_for as retired_for_of, without_station as without_station_of, other_at_work as other_at_work_of, others_at_work as others_at_work_of, awaiting as awaiting_of, after_work as after_work_of, settled, Settles};

use crate::seat::Seat;
use guides::Number;
use orders::Order;
use records::{Answer, MOST_STATIONS, Outcome, Place, Refusal, Station, Status, Stepped, Task};

// The work of a station, if one is under way. NO STATION: there is no such station, or it is not among the first 16.
// By `get`, since an iterator's `nth` walks: each step would cost more, the higher the station's number.
pub fn task_of<K: Order>(
    stations: &[Station<K>],
    station: usize,
) -> Result<Option<Task<K>>, Refusal>
    ensures { MatchResult result (FindsStation stations.now station) (FindsNone stations.now station) }
{
    if station >= MOST_STATIONS {
        return Err(Refusal::NoStation);
    }
    let found = stations.get(station).ok_or(Refusal::NoStation)?;
    Ok(found.task)
}

// Some station is in the set.
fn anyone(waits: &[bool; MOST_STATIONS]) -> bool
    ensures { result ≡ anyone_of waits.now }
{
    waits.contains(&true)
}

// A place that waits for the works of these stations; it is free where there are none.
fn retired_for(waits: [bool; MOST_STATIONS]) -> Status
    ensures { result ≡ retired_for_of waits }
{
    if anyone(&waits) {
        Status::Retired(waits)
    } else {
        Status::Free
    }
}

// The status of a place once the work of a station has ended.
fn without_station(seat: Seat, status: Status) -> Status
    ensures { result ≡ without_station_of seat.number status }
{
    match status {
        Status::Retired(waits) => {
            let mut left = waits;
            left[seat.index()] = false;
            retired_for(left)
        }
        Status::Free | Status::InHand | Status::Chained => status,
    }
}

// Station i is another than `me` and has a work under way.
fn other_at_work<K: Order>(stations: &[Station<K>], me: u8, i: usize) -> bool
    ensures { result ≡ other_at_work_of me stations.now i }
{
    i != usize::from(me)
        && stations
            .get(i)
            .is_some_and(|station| station.task.is_some())
}

// The stations other than `me` that have a work under way.
fn others_at_work<K: Order>(stations: &[Station<K>], me: u8) -> [bool; MOST_STATIONS]
    ensures { result ≡ others_at_work_of me stations.now }
{
    std::array::from_fn(|i| other_at_work(stations, me, i))
}

// The work of a station is told that a place was retired.
fn awaiting<K: Order>(station: Station<K>) -> Station<K>
    ensures { result ≡ awaiting_of station }
{
    Station {
        task: station.task.map(|task| Task {
            awaited: true,
            ..task
        }),
    }
}

// Every work under way is told that a place was retired.
fn await_all<K: Order>(stations: &mut [Station<K>])
    ensures { stations.new ≡ map awaiting_of stations.old }
{
    for station in stations.iter_mut() {
        *station = awaiting(*station);
    }
}

// The places once the work of a station has ended: where a place was retired while it was under way, no place waits for
// it any longer, and a place that waits for nobody is free.
pub fn after_work<K: Order>(places: &mut [Place<K>], seat: Seat, task: Task<K>)
    ensures { places.new ≡ after_work_of seat.number task places.old }
{
    if task.awaited {
        for place in places.iter_mut() {
            place.status = without_station(seat, place.status);
        }
    }
}

// The work ends: its station is idle, and no place waits for it any longer.
pub fn end_work<K: Order>(
    places: &mut [Place<K>],
    stations: &mut [Station<K>],
    seat: Seat,
    task: Task<K>,
)
    requires { seat.number < length stations.old }
    ensures { (places.new ≡ after_work_of seat.number task places.old) × (stations.new ≡ slice_set stations.old seat.number idle) }
{
    after_work(places, seat, task);
    stations[seat.index()] = Station { task: None };
}

// Gives a place another status. The key only stands in the contract for a place that is not there. An index, since the
// library's clauses do not tell what a slice holds after a write through its get_mut.
fn set_status<K: Order>(places: &mut [Place<K>], key: K, place: Number, status: Status)
    ensures { places.new ≡ written key place (with_status status) places.old }
{
    let i = usize::from(place);
    if i < places.len() {
        places[i].status = status;
    }
}

// A place is retired: it waits for every other work that is under way, and each is told.
fn retire<K: Order>(
    places: &mut [Place<K>],
    stations: &mut [Station<K>],
    me: Seat,
    key: K,
    place: Number,
)
    ensures { (places.new ≡ written key place (with_status (retired_for_of (others_at_work_of me.number stations.old))) places.old) × (stations.new ≡ map awaiting_of stations.old) }
{
    let status = retired_for(others_at_work(stations, me.number));
    await_all(stations);
    set_status(places, key, place, status);
}

// The step is counted. A work that goes on or waits stays with its station. A work that ends leaves its station idle.
pub fn settle<K: Order>(
    places: &mut [Place<K>],
    stations: &mut [Station<K>],
    me: Seat,
    task: Task<K>,
    outcome: Outcome<K>,
) -> Stepped<K>
    requires { me.number < length stations.old }
    ensures { Settles (settled me.number task stations.old outcome places.old) result places.new stations.new }
{
    let steps = task.steps.saturating_add(1);
    match outcome {
        Outcome::Goes(next) => {
            stations[me.index()] = Station {
                task: Some(Task { steps, ..next }),
            };
            Stepped::Moved
        }
        Outcome::Waits => {
            stations[me.index()] = Station {
                task: Some(Task { steps, ..task }),
            };
            Stepped::Waits
        }
        Outcome::Ends(answer) => {
            end_work(places, stations, me, task);
            Stepped::Ended(answer, steps)
        }
        Outcome::Retires(place) => {
            retire(places, stations, me, task.key, place);
            end_work(places, stations, me, task);
            Stepped::Ended(Answer::Yes, steps)
        }
    }
}
