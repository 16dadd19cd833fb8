// A table of places that shows a search tree, and the small changes of it. The table knows no rule: a guide around it
// holds the rule against loops.
#![tactic(auto)]

mod entry;
mod slots;
mod table;

pub use entry::Entry;
pub use slots::{SLOTS, Slots};
pub use table::Table;
