// Books, one for each seed.
use crate::kind::{Kind, is_in_order};
use crate::round::{Done, Round};
use crate::wrong::Wrong;
use anyhow::bail;
use guides::Guide;

// So many books for each guide and kind of key.
const BOOKS: u64 = 4000;

// Plays all the books of one guide and one kind of key, each from a seed of its own, counted on from the first, and
// prints what was done. Stops at the first fault.
pub fn play_books<K: Kind, G: Guide + Drop>(
    rt: &(impl Print + AllocGlobal),
    name: &str,
    first: u64,
) -> anyhow::Result<()> {
    if !is_in_order::<K>() {
        println!(rt; "{name}: {}", Wrong::Universe)?;
        bail!("the keys are not in order");
    }
    let mut done = Done::default();
    for seed in first..first.saturating_add(BOOKS) {
        match Round::<K, G>::new(rt.alloc(), seed)?.play() {
            Ok(more) => done += more,
            Err(stop) => {
                println!(rt; "{name}: seed {seed}, {stop}")?;
                bail!("the index differs from the set");
            }
        }
    }
    println!(rt; "{name}: {BOOKS} books, {done}")?;
    Ok(())
}
