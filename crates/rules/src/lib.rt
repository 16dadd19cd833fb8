// The step list: the rules that a work follows, one function each, and which of them applies. A rule takes just what
// its definition speaks of, the places, its task and for some the station or the guide: a struct of all would hide that.
#![tactic(auto)]

mod find;
mod follow;
mod hang;
mod hold;
mod places;
mod put;
mod read;
mod strike;

pub use follow::follow_rule;
pub use put::MOST_PLACES;
