// A book of one station that is filled and worked in.
use engine::{begin, mend, open, step};
use guides::{Guide, Mended};
use orders::Ingredient;
use records::{Place, Refusal, Station, Stepped, Work};

// A work of one station takes far fewer steps. Play's runs have the same bound, but measure does not stand on play.
const MOST_STEPS: u32 = 5000;

const MOST_MENDS: u32 = 100_000;

// A book of records and a guide. Its records lie in arrays, since its C interface hands in no heap.
#[derive(Drop)]
pub struct Bench<G, const PLACES: usize> {
    places: [Place<Ingredient>; PLACES],
    stations: [Station<Ingredient>; 1],
    guide: G,
}

// The key of a number, in an order that is neither rising nor falling. Keys are even, so that others lie between. With
// no keys at all it is 0, and no Option: C may ask for rounds with no keys, and the works then go on with that key.
fn key_of(number: u32, keys: u32) -> u32 {
    let place = number.wrapping_mul(387).checked_rem(keys);
    place.map_or(0, |place| place.wrapping_mul(2).wrapping_add(2))
}

impl<G: Guide + Drop, const PLACES: usize> Bench<G, PLACES> {
    // A book over a new guide, to be opened where it lies: a Result that holds a book would be moved as a whole.
    pub fn new() -> Bench<G, PLACES> {
        Bench {
            places: [Place::blank(Ingredient(0)); PLACES],
            stations: [Station { task: None }],
            guide: G::new(),
        }
    }

    // Opens the book.
    pub fn open(&mut self) -> Result<(), Refusal> {
        open(&mut self.places, &mut self.stations, &mut self.guide)
    }

    // Fills the book and has a work done so many times: the own steps of all.
    pub fn measure(&mut self, work: Work, keys: u32, rounds: u32) -> u64 {
        self.fill(keys);
        self.rounds(work, keys, rounds)
    }

    // One work from its begin to its end: its own steps, or none if it did not end.
    fn work(&mut self, work: Work, key: u32) -> Option<u64> {
        // `is_err`, since with `ok()?` the compiler inlines less, and each step costs 20 to 50 instructions more.
        if begin(&mut self.stations, 0, work, Ingredient(key)).is_err() {
            return None;
        }
        for _ in 0..MOST_STEPS {
            let stepped = step(&mut self.places, &mut self.stations, &mut self.guide, 0).ok()?;
            if let Stepped::Ended(_, steps) = stepped {
                return Some(steps);
            }
        }
        None
    }

    // Mends until nothing is left to mend.
    fn mends(&mut self) {
        for _ in 0..MOST_MENDS {
            if mend(&mut self.guide) == Mended::Nothing {
                return;
            }
        }
    }

    // Puts so many keys, and mends.
    fn fill(&mut self, keys: u32) {
        for number in 0..keys {
            let _ = self.work(Work::Put, key_of(number, keys));
            self.mends();
        }
    }

    // The own steps of these works, one after the other. One that did not end counts for none.
    fn works(&mut self, works: &[(Work, u32)]) -> u64 {
        works.iter().fold(0, |steps: u64, (work, key)| {
            steps.wrapping_add(self.work(*work, *key).unwrap_or(0))
        })
    }

    // The three numbers of a measurement are parameters of their own, as the C function is given them.
    // The work, so many times, with one key after the other; a put is followed by the strike of its key, and the other
    // way round. The own steps of all.
    fn rounds(&mut self, work: Work, keys: u32, rounds: u32) -> u64 {
        (0..rounds).fold(0, |steps: u64, number| {
            let key = key_of(number, keys);
            let between = key.wrapping_add(1);
            steps.wrapping_add(match work {
                Work::Put => self.works(&[(Work::Put, between), (Work::Strike, between)]),
                Work::Strike => self.works(&[(Work::Strike, key), (Work::Put, key)]),
                Work::Look | Work::First | Work::After => self.works(&[(work, key)]),
            })
        })
    }
}
