// What a kind of key is: a lawful order, and the kinds that the index serves.
#![tactic(auto)]

mod days;
mod lot;
mod number;
mod order;
mod pair;

pub use days::Days;
pub use lot::LotNumber;
pub use number::Ingredient;
pub use order::Order;
pub use pair::{Lot, Pair};
