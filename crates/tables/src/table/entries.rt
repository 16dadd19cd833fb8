// The table's entries, read and written one by one.
ghost use Rattle.std.specs.Prelude.{◌≡◌, slice_set};
ghost use Rattle.tables.specs.Entries.{with_child, with_exchanged, with_links, with_parent, with_before, with_after};
ghost use Rattle.tables.specs.Revisions.{at, revise, Revises, opened};
ghost use Rattle.tables.specs.Rows.{rows};

use crate::entry::Entry;
use crate::slots::Slots;
use crate::table::Table;
use guides::{HIGH, LOW, Number, Side};

impl Table {
    // The table of a tree in which only High stands.
    pub fn new() -> Table
        ensures { rows result ≡ opened }
    {
        let mut table = Table {
            entries: Slots::new(Entry::blank()),
        };
        table.set_after(LOW, HIGH);
        table
    }

    // The entry of a place; beyond the table it is blank.
    pub fn entry(&self, place: Number) -> Entry
        ensures { result ≡ at (rows self.now) place }
    {
        self.entries.read(place, Entry::blank())
    }

    // Writes the entry of a place; beyond the table nothing is written.
    pub fn put(&mut self, place: Number, entry: Entry)
        ensures { rows self.new ≡ slice_set (rows self.old) place entry }
    {
        self.entries.write(place, entry);
    }

    // Writes what a change makes of the entry of a place; beyond the table nothing is written.
    fn revise<F: FnOnce(Entry) -> Entry>(&mut self, place: Number, change: F)
        requires { F.IsAlwaysCallable change }
        ensures { Revises (F.post change) place (rows self.old) (rows self.new) }
    {
        let entry = self.entry(place);
        self.put(place, change(entry));
    }

    // Writes the child of a place on a side.
    pub fn set_child(&mut self, place: Number, side: Side, child: Number)
        ensures { rows self.new ≡ revise place (with_child side child) (rows self.old) }
    {
        self.revise(place, |entry| entry.with_child(side, child));
    }

    // Writes a new child into the spot of an old one.
    pub fn exchange_child(&mut self, place: Number, old: Number, new: Number)
        ensures { rows self.new ≡ revise place (with_exchanged old new) (rows self.old) }
    {
        self.revise(place, |entry| entry.with_exchanged(old, new));
    }

    // Writes the parent of a place.
    pub fn set_parent(&mut self, place: Number, parent: Number)
        ensures { rows self.new ≡ revise place (with_parent parent) (rows self.old) }
    {
        self.revise(place, |entry| Entry { parent, ..entry });
    }

    // Writes the children and the parent of a place as another entry has them.
    pub fn set_links(&mut self, place: Number, other: Entry)
        ensures { rows self.new ≡ revise place (with_links other) (rows self.old) }
    {
        self.revise(place, |entry| entry.with_links(other));
    }

    // Writes the parent of a place and its child on a side.
    pub fn rehang(&mut self, place: Number, side: Side, child: Number, parent: Number)
        ensures { rows self.new ≡ revise place (λ e. with_parent parent (with_child side child e)) (rows self.old) }
    {
        self.revise(
            place,
            |entry| Entry {
                parent,
                ..entry.with_child(side, child)
            },
        );
    }

    // Writes the neighbour before a place.
    pub fn set_before(&mut self, place: Number, before: Number)
        ensures { rows self.new ≡ revise place (with_before before) (rows self.old) }
    {
        self.revise(place, |entry| Entry { before, ..entry });
    }

    // Writes the neighbour after a place.
    pub fn set_after(&mut self, place: Number, after: Number)
        ensures { rows self.new ≡ revise place (with_after after) (rows self.old) }
    {
        self.revise(place, |entry| Entry { after, ..entry });
    }
}
