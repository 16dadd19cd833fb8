// Lot numbers as keys, in rising order. An impl of its own, as number.rt tells.
ghost use Rattle.orders.specs.Ranks.{by_lot_number};
ghost use Rattle.std.proofs.Common.{rules};

use crate::order::Order;
use std::cmp::Ordering;

// The number of a lot among those of one best-before day.
#[derive(Clone, Copy, PartialEq, Eq, PartialOrd, Ord, Debug)]
pub struct LotNumber(pub u32);

impl Order for LotNumber {
    ghost rank = { by_lot_number };

    ghost swaps = { Prim.search rules };

    ghost chains = { Prim.search rules };

    ghost same = { Prim.search rules };

    fn compare(self, other: LotNumber) -> Ordering {
        self.cmp(&other)
    }
}
