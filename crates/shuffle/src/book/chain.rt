// The contents of a book, read from its places.
use super::Book;
use crate::keys::Keys;
use crate::kind::Kind;
use crate::wrong::Wrong;
use guides::{Guide, HIGH, LOW, Number};
use records::{Place, Status};

// What is found on the way from Low to High: the keys of the unmarked places, and how many places there are.
#[derive(Clone, Copy)]
pub struct Found {
    pub keys: Keys,
    pub length: usize,
}

impl<K: Kind, G: Guide> Book<K, G> {
    // The place of this number.
    pub(super) fn place(&self, number: Number) -> Result<&Place<K>, Wrong> {
        self.places.get(usize::from(number)).ok_or(Wrong::NoPlace)
    }

    // Walks the chain from Low to High by successors. The keys have to rise.
    // No `for place in ..`: which place comes next stands in the one before, so the loop counts how far it has come.
    pub(super) fn walk(&self) -> Result<Found, Wrong> {
        let mut keys = Keys::new();
        let mut from: usize = 0;
        let mut at = self.place(LOW)?.next;
        for length in 0..self.places.len() {
            if at == HIGH {
                return Ok(Found { keys, length });
            }
            let place = self.place(at)?;
            if place.status != Status::Chained {
                return Err(Wrong::NotChained);
            }
            let key = place.key.index().ok_or(Wrong::ForeignKey)?;
            if key < from {
                return Err(Wrong::NotRising);
            }
            if !place.marked {
                keys.add(key);
            }
            from = key.saturating_add(1);
            at = place.next;
        }
        Err(Wrong::Endless)
    }

    // A moment after a call that changes no contents.
    pub(super) fn see(&mut self) -> Result<(), Wrong> {
        let found = self.walk()?;
        self.onlooker.see(found.keys)
    }
}
