// The calls list and counts, which only read, each with what it has to answer.
use super::Book;
use crate::keys::Keys;
use crate::kind::{Kind, MOST_KEYS};
use crate::wrong::Wrong;
use engine::{counts, list};
use guides::Guide;
use records::Refusal;
use std::iter;

// The key that stands in a list where nothing was written.
const FILLER: usize = MOST_KEYS - 1;

// The list begins with these keys, and the rest is as it was.
fn shows<K: Kind>(listed: &[K], keys: &Keys) -> bool {
    let held = (0..MOST_KEYS).filter(|key| keys.has(*key));
    listed
        .iter()
        .zip(held.chain(iter::repeat(FILLER)))
        .all(|(key, expected)| key.index() == Some(expected))
}

// The list that was given and what was answered. Too short a list has to be refused and stay as it was.
fn is_listed<K: Kind>(said: Result<usize, Refusal>, listed: &[K], contents: &Keys) -> bool {
    let count = contents.count();
    match said {
        Ok(told) => told == count && count <= listed.len() && shows(listed, contents),
        Err(Refusal::ShortList) => count > listed.len() && shows(listed, &Keys::new()),
        Err(_) => false,
    }
}

impl<K: Kind, G: Guide> Book<K, G> {
    // Lists the contents into the first positions of a list, so many.
    pub fn list(&mut self, positions: usize) -> Result<(), Wrong> {
        self.list.fill_with(|| K::key(FILLER));
        let end = positions.min(self.list.len());
        let listed = &mut self.list[..end];
        let said = list(&self.places, listed);
        if !is_listed(said, listed, &self.onlooker.contents) {
            return Err(Wrong::Listed);
        }
        self.see()
    }

    // Counts the places by their use. All but Low and High are counted, each once.
    pub fn counts(&mut self) -> Result<(), Wrong> {
        let said = counts(&self.places);
        let all = 2usize
            .saturating_add(said.free)
            .saturating_add(said.in_hand)
            .saturating_add(said.chained)
            .saturating_add(said.retired);
        if said != self.tally()? || all != self.places.len() {
            return Err(Wrong::Counted);
        }
        self.see()
    }
}
