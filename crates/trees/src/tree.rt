// The tree: a table that keeps the rule against loops. Its guide stands in a file below, since its clauses speak of it.
ghost use Rattle.std.specs.Prelude.{◌≡◌, ◌≤◌, true, length};
ghost use Rattle.tables.specs.Rows.{rows};
ghost use Rattle.tables.specs.Shapes.{keeps_law, keeps_links, keeps_thread, KeepsRest};

use tables::Table;

mod plain;
mod reading;
mod turning;

#[derive(Drop)]
pub struct Tree {
    table: Table,
    // The number of places that the guide was last cleared for.
    places: usize,
    ghost sized: { length (rows table) ≡ 1024 },
    ghost bounded: { places ≤ 1024 },
    // The rule against loops and against links outside the places.
    ghost lawful: { keeps_law (rows table) places ≡ true },
    ghost linked: { keeps_links (rows table) ≡ true },
    ghost threaded: { keeps_thread (rows table) ≡ true },
    ghost resting: { KeepsRest (rows table) },
}
