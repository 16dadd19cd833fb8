// Whole works on a filled book, for measuring them from outside: plain numbers in and out.
#![tactic(auto)]

mod bench;

use bench::Bench;
use even::Even;
use guides::{Guide, Line};
use records::Work;
use trees::Tree;

// The work of a number: C names a work, and a guide below, by a number, since its interface has no enum of ours.
fn work_of(number: u8) -> Work {
    match number {
        0 => Work::Look,
        1 => Work::First,
        2 => Work::After,
        3 => Work::Put,
        _ => Work::Strike,
    }
}

// The own steps of all rounds together in this book, or 0 if it was not opened: C is given a number and no Option.
fn measured<G: Guide + Drop, const PLACES: usize>(
    bench: &mut Bench<G, PLACES>,
    work: Work,
    keys: u32,
    rounds: u32,
) -> u64 {
    bench
        .open()
        .map_or(0, |()| bench.measure(work, keys, rounds))
}

// The own steps of all rounds together, or 0 if the book was not opened: guide 0 is the straight guide with 64 places,
// 1 the plain tree and 2 the even tree with 1,024. Works 0 to 2 are look, first and after; 3 and 4 are a put and the
// strike of its key, counted together.
#[unsafe(no_mangle)]
pub extern "C" fn torglimuz_measure(guide: u8, work: u8, keys: u32, rounds: u32) -> u64 {
    let work = work_of(work);
    match guide {
        0 => measured(&mut Bench::<Line, 64>::new(), work, keys, rounds),
        1 => measured(&mut Bench::<Tree, 1024>::new(), work, keys, rounds),
        _ => measured(&mut Bench::<Even, 1024>::new(), work, keys, rounds),
    }
}
