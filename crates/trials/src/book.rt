// A book over the straight guide, with as many places and stations as its type says.
use engine::{begin, leave, open, step};
use guides::{Guide, Line};
use orders::Ingredient;
use play::run;
use records::{Place, Refusal, Station, Stepped, Work};

// Its records lie in arrays, since each trial knows how many it wants. Beside them it holds only the straight guide.
// A trial may damage the stations itself.
#[derive(Drop)]
pub struct Book<const PLACES: usize, const STATIONS: usize> {
    places: [Place<Ingredient>; PLACES],
    pub stations: [Station<Ingredient>; STATIONS],
    guide: Line,
}

impl<const PLACES: usize, const STATIONS: usize> Book<PLACES, STATIONS> {
    pub fn open() -> Result<Self, Refusal> {
        let mut book = Book {
            places: [Place::blank(Ingredient(0)); PLACES],
            stations: [Station { task: None }; STATIONS],
            guide: Line::new(),
        };
        open(&mut book.places, &mut book.stations, &mut book.guide)?;
        Ok(book)
    }

    pub fn begin(&mut self, station: usize, work: Work, key: u32) -> Result<(), Refusal> {
        begin(&mut self.stations, station, work, Ingredient(key))
    }

    pub fn step(&mut self, station: usize) -> Result<Stepped<Ingredient>, Refusal> {
        step(
            &mut self.places,
            &mut self.stations,
            &mut self.guide,
            station,
        )
    }

    // So many steps, whatever they do.
    pub fn steps(&mut self, station: usize, count: u8) -> Result<(), Refusal> {
        for _ in 0..count {
            let _ = self.step(station)?;
        }
        Ok(())
    }

    // Steps until the work ends or waits.
    pub fn run(&mut self, station: usize) -> Result<Stepped<Ingredient>, Refusal> {
        run(
            &mut self.places,
            &mut self.stations,
            &mut self.guide,
            station,
        )
    }

    pub fn leave(&mut self, station: usize) -> Result<(), Refusal> {
        leave(&mut self.places, &mut self.stations, station)
    }
}
