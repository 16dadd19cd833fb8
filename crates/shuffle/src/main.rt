// Random interleavings of the index against a simple set.
// `as` in these files: std has no From between usize and u32 or u64, and try_from would add an error that never comes.
#![tactic(auto)]

mod book;
mod dice;
mod keys;
mod kind;
mod onlooker;
mod plan;
mod round;
mod rover;
mod seeds;
mod watch;
mod wrong;

use even::Even;
use guides::Line;
use orders::{Ingredient, Lot};
use rover::Rover;
use seeds::play_books;
use trees::Tree;

fn run(rt: &(impl Print + AllocGlobal)) -> anyhow::Result<()> {
    play_books::<Ingredient, Line>(rt, "line, ingredients", 10_000)?;
    play_books::<Lot, Line>(rt, "line, lots", 20_000)?;
    play_books::<Ingredient, Rover<Line>>(rt, "roving line, ingredients", 30_000)?;
    play_books::<Lot, Rover<Line>>(rt, "roving line, lots", 40_000)?;
    play_books::<Ingredient, Tree>(rt, "tree, ingredients", 50_000)?;
    play_books::<Lot, Tree>(rt, "tree, lots", 60_000)?;
    play_books::<Ingredient, Even>(rt, "even, ingredients", 70_000)?;
    play_books::<Lot, Even>(rt, "even, lots", 80_000)
}

fn main(rt: HostRuntime) -> anyhow::Result<()> {
    run(&rt)
}
