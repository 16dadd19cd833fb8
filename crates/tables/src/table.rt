// The table of entries, and the whole changes of it. It lies in a file of its own, since its clauses speak of it below.
use crate::entry::Entry;
use crate::slots::Slots;

mod changes;
mod entries;

// The entries of places 0 to 1023. Low's has only its neighbour after it.
#[derive(Drop)]
pub struct Table {
    entries: Slots<Entry>,
}
