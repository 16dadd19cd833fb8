// A simple set of keys, by their numbers in the universe.
use crate::kind::MOST_KEYS;

// A bool for each key, and no BTreeSet: a set on the heap is no `Copy` value, and an `add` to it could lack memory.
#[derive(Clone, Copy, PartialEq, Eq)]
pub struct Keys {
    held: [bool; MOST_KEYS],
}

// How one set differs from another.
#[derive(Clone, Copy)]
pub enum Change {
    Same,
    Added(usize),
    Taken(usize),
    Many,
}

impl Keys {
    pub fn new() -> Keys {
        Keys {
            held: [false; MOST_KEYS],
        }
    }

    pub fn has(&self, key: usize) -> bool {
        self.held.get(key) == Some(&true)
    }

    pub fn add(&mut self, key: usize) {
        if let Some(held) = self.held.get_mut(key) {
            *held = true;
        }
    }

    pub fn count(&self) -> usize {
        self.held.iter().filter(|held| **held).count()
    }

    // The smallest key from this one on.
    pub fn smallest_from(&self, from: usize) -> Option<usize> {
        (from..MOST_KEYS).find(|key| self.has(*key))
    }

    // How the set differs from what it was before.
    pub fn change_since(&self, before: &Keys) -> Change {
        let mut changed = (0..MOST_KEYS).filter(|key| self.has(*key) != before.has(*key));
        match (changed.next(), changed.next()) {
            (None, _) => Change::Same,
            (Some(key), None) if self.has(key) => Change::Added(key),
            (Some(key), None) => Change::Taken(key),
            (Some(_), Some(_)) => Change::Many,
        }
    }
}
