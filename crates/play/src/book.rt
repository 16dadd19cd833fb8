// A book: the records and the guide that a script works on.
ghost use Rattle.std.specs.Prelude.{◌≡◌, replicate, IfOk};
ghost use Rattle.engine.specs.Calling.{opening};
ghost use Rattle.play.specs.Booked.{new_places, new_stations, OpensOrLacks, BeginsIn, RunsIn, LeavesIn};

use crate::error::PlayError;
use crate::running::run;
use engine::{MOST_PLACES, begin, leave};
use guides::Guide;
use orders::Ingredient;
use promises::open;
use records::{MOST_STATIONS, Place, Refusal, Station, Stepped, Work};
use std::alloc::{AllocError, Global};

// Its records lie on the heap, since a script says how many there are. Beside them it holds only the guide.
#[derive(Drop)]
pub struct Book<G> {
    places: Vec<Place<Ingredient>>,
    stations: Vec<Station<Ingredient>>,
    guide: G,
}

// One record more than the index serves, for a count that open is to refuse.
// `as` here and below: std has no From between u32 and usize, and try_from would add an error that never comes.
const TOO_MANY_PLACES: u32 = MOST_PLACES as u32 + 1;

const TOO_MANY_STATIONS: u32 = MOST_STATIONS as u32 + 1;

// A value, so many times.
pub fn repeated<T: Copy>(heap: Global, value: T, count: u32) -> Result<Vec<T>, AllocError>
    ensures { IfOk result (λ v. v.items ≡ replicate count value) }
{
    (0..count).map(|_| value).collect(heap)
}

// Opens a book with a new guide, or answers why it was refused. However large the counts are, few records are made. The two
// counts and the memory have no more to do with one another, so they stay three parameters.
pub fn open_book<G: Guide + Drop>(
    heap: Global,
    stations: u32,
    places: u32,
) -> Result<Book<G>, PlayError>
    ensures { OpensOrLacks G.Guide.meaning (opening G.Guide.CAPACITY (new_places places) (new_stations stations)) result }
{
    let place = Place::blank(Ingredient(0));
    let station = Station { task: None };
    let mut places = repeated(heap, place, places.min(TOO_MANY_PLACES))?;
    let mut stations = repeated(heap, station, stations.min(TOO_MANY_STATIONS))?;
    let mut guide = G::new();
    open(&mut places, &mut stations, &mut guide)?;
    Ok(Book {
        places,
        stations,
        guide,
    })
}

impl<G: Guide> Book<G> {
    // Begins a work, with a key that first ignores.
    pub fn begin(&mut self, station: u32, work: Work, key: u32) -> Result<(), Refusal>
        ensures { BeginsIn station work key self.old result self.new }
    {
        begin(&mut self.stations, station as usize, work, Ingredient(key))
    }

    // Steps a station's work until an end, a wait, a refusal or 5,000 steps.
    pub fn run(&mut self, station: u32) -> Result<Stepped<Ingredient>, Refusal>
        ensures { RunsIn G.Guide.meaning station self.old result self.new }
    {
        let worker = station as usize;
        run(
            &mut self.places,
            &mut self.stations,
            &mut self.guide,
            worker,
        )
    }

    // Ends a work without answer.
    pub fn leave(&mut self, station: u32) -> Result<(), Refusal>
        ensures { LeavesIn station self.old result self.new }
    {
        let leaver = station as usize;
        leave(&mut self.places, &mut self.stations, leaver)
    }
}
