// The index: its calls on lent records. Each says exactly what it answers and what it leaves.
#![tactic(auto)]

mod advance;
mod call;
mod counting;
mod listing;
mod mending;
mod seat;
mod settle;
mod tally;

pub use advance::step;
pub use call::{begin, leave, open};
pub use counting::counts;
pub use listing::list;
pub use mending::mend;
pub use rules::MOST_PLACES;
pub use tally::Counts;
