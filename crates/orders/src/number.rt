// Ingredient numbers as keys, in rising order. Each kind of number has an impl of its own, since each names its own
// rank, the definition that clauses cite: one impl for all would take the rank from a derive, and no page would show it.
ghost use Rattle.orders.specs.Ranks.{by_ingredient};
ghost use Rattle.std.proofs.Common.{rules};

use crate::order::Order;
use std::cmp::Ordering;

// An ingredient number.
#[derive(Clone, Copy, PartialEq, Eq, PartialOrd, Ord, Debug)]
pub struct Ingredient(pub u32);

impl Order for Ingredient {
    ghost rank = { by_ingredient };

    ghost swaps = { Prim.search rules };

    ghost chains = { Prim.search rules };

    ghost same = { Prim.search rules };

    fn compare(self, other: Ingredient) -> Ordering {
        self.cmp(&other)
    }
}
