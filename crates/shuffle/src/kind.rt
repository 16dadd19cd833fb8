// The kinds of keys, each with a universe of 64 keys in rising order.
use orders::{Days, Ingredient, Lot, LotNumber, Order, Pair};

// The universe has so many keys.
pub const MOST_KEYS: usize = 64;

pub trait Kind: Order {
    // The key of this number in the universe.
    fn key(index: usize) -> Self;

    // The number of a key in the universe.
    fn index(self) -> Option<usize>;
}

const INGREDIENTS_APART: u32 = 68_174_084;

// From 0 to the greatest number.
impl Kind for Ingredient {
    fn key(index: usize) -> Ingredient {
        if index >= MOST_KEYS - 1 {
            return Ingredient(u32::MAX);
        }
        // `as`: see main.rt.
        Ingredient(INGREDIENTS_APART * index as u32)
    }

    fn index(self) -> Option<usize> {
        if self.0 == u32::MAX {
            return Some(MOST_KEYS - 1);
        }
        if self.0 % INGREDIENTS_APART != 0 {
            return None;
        }
        usize::try_from(self.0 / INGREDIENTS_APART).ok()
    }
}

// Four days, the least and the greatest among them, with 16 lots each.
const DAYS: [Days; 4] = [Days(-32_768), Days(-1), Days(0), Days(32_767)];

const LOTS: usize = 16;

const LOTS_APART: u32 = 286_331_153;

impl Kind for Lot {
    fn key(index: usize) -> Lot {
        Pair {
            first: DAYS[(index / LOTS).min(3)],
            // `as`: see main.rt.
            second: LotNumber(LOTS_APART * (index % LOTS) as u32),
        }
    }

    fn index(self) -> Option<usize> {
        let LotNumber(number) = self.second;
        if number % LOTS_APART != 0 {
            return None;
        }
        let day = DAYS.iter().position(|day| *day == self.first)?;
        let lot = usize::try_from(number / LOTS_APART).ok()?;
        Some(day * LOTS + lot)
    }
}

// The universe rises, and each of its keys is known by its number.
pub fn is_in_order<K: Kind>() -> bool {
    let are_known = (0..MOST_KEYS).all(|index| K::key(index).index() == Some(index));
    let rise = (1..MOST_KEYS)
        .zip(0..MOST_KEYS)
        .all(|(high, low)| K::key(low).compare(K::key(high)).is_lt());
    are_known && rise
}
