// How a book is dealt: its sizes, its keys, and what its stations like to do.
ghost use Rattle.std.specs.Prelude.{◌<◌, ◌≤◌};

use crate::dice::Dice;
use crate::kind::MOST_KEYS;
use records::Work;

#[derive(Clone, Copy)]
pub struct Plan {
    pub stations: usize,
    pub places: usize,
    // The keys that are used: so many from this one on.
    first_key: usize,
    keys: usize,
    // The stations but station 0 use the first so many of the works below.
    works: usize,
    ghost some_works: { 0 < works },
    ghost known_works: { works ≤ 8 },
    // Another station goes on for about so many calls before the next follows.
    burst: usize,
    // Station 0 makes one call in so many, so that its works last long.
    patience: usize,
}

// A station draws its works from the first so many of these.
const WORKS: [Work; 8] = [
    Work::Put,
    Work::Strike,
    Work::Look,
    Work::After,
    Work::First,
    Work::After,
    Work::Put,
    Work::Strike,
];

// Few places most often, and all that the straight guide holds now and then.
fn some_places(dice: &mut Dice) -> usize {
    if dice.hits(24) {
        return 64;
    }
    let most = dice.one_of(&[4, 8, 19, 19]);
    dice.roll(most).saturating_add(2)
}

fn some_stations(dice: &mut Dice) -> usize {
    let most = dice.one_of(&[3, 4, 8, 16]);
    dice.roll(most).saturating_add(1)
}

fn some_keys(dice: &mut Dice, places: usize) -> usize {
    let most = dice.one_of(&[3, 3, places, MOST_KEYS]);
    dice.roll(most).saturating_add(2).min(MOST_KEYS)
}

impl Plan {
    pub fn new(dice: &mut Dice) -> Plan {
        let places = some_places(dice);
        let stations = some_stations(dice);
        let keys = some_keys(dice, places);
        let first_key = dice.roll(MOST_KEYS.saturating_sub(keys).saturating_add(1));
        let works = 2 * (dice.roll(4) + 1);
        let burst = dice.one_of(&[1, 3, 8, 20]);
        let patience = dice.one_of(&[2, 6, 16, 30]);
        Plan {
            stations,
            places,
            first_key,
            keys,
            works,
            burst,
            patience,
        }
    }

    // Whether the next call is station 0's.
    pub fn is_slow_turn(&self, dice: &mut Dice) -> bool {
        dice.hits(self.patience)
    }

    // The same station again, or another one but station 0.
    pub fn next_station(&self, dice: &mut Dice, last: usize) -> usize {
        if !dice.hits(self.burst) {
            return last;
        }
        let others = self.stations.saturating_sub(1);
        dice.roll(others).saturating_add(1).min(others)
    }

    pub fn some_key(&self, dice: &mut Dice) -> usize {
        self.first_key.saturating_add(dice.roll(self.keys))
    }

    pub fn some_work(&self, dice: &mut Dice, station: usize) -> Work {
        let kinds = if station == 0 { 6 } else { self.works };
        WORKS[dice.roll(kinds)]
    }
}
