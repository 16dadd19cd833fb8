// Two keys as one: a pair of any two lawful kinds is again a lawful kind.
ghost use Rattle.orders.specs.Ranks.{by_parts};
ghost use Rattle.std.specs.Prelude.{refl};
ghost use Rattle.orders.specs.Lexical.{first_chains};
ghost use Rattle.std.proofs.Common.{rules};

use crate::days::Days;
use crate::lot::LotNumber;
use crate::order::Order;
use std::cmp::Ordering;

#[derive(Clone, Copy, PartialEq, Eq, Debug)]
pub struct Pair<A, B> {
    pub first: A,
    pub second: B,
}

// A lot is known by its days to best-before and then by its number.
pub type Lot = Pair<Days, LotNumber>;

impl<A: Order, B: Order> Order for Pair<A, B> {
    ghost rank = { by_parts A.Order.rank B.Order.rank };

    ghost swaps = { Prim.search rules };

    ghost chains = { λ a b c h k.
        let one = A.Order in
        let two = B.Order.rank in
        first_chains A.Order.rank one.chains one.same a.first b.first c.first _ _ refl refl
        (two a.second b.second) (two b.second c.second) (two a.second c.second) h k
        (B.Order.chains a.second b.second c.second) };

    ghost same = { Prim.search rules };

    fn compare(self, other: Pair<A, B>) -> Ordering {
        self.first
            .compare(other.first)
            .then_with(|| self.second.compare(other.second))
    }
}
