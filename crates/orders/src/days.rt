// Days to best-before, negative once the date has passed. An impl of its own, as number.rt tells.
ghost use Rattle.orders.specs.Ranks.{by_days};
ghost use Rattle.std.proofs.Common.{rules};

use crate::order::Order;
use std::cmp::Ordering;

#[derive(Clone, Copy, PartialEq, Eq, PartialOrd, Ord, Debug)]
pub struct Days(pub i16);

impl Order for Days {
    ghost rank = { by_days };

    ghost swaps = { Prim.search rules };

    ghost chains = { Prim.search rules };

    ghost same = { Prim.search rules };

    fn compare(self, other: Days) -> Ordering {
        self.cmp(&other)
    }
}
