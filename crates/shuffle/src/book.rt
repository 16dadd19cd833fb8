// A book with an onlooker beside it, who judges each call.
mod calls;
mod chain;
mod hold;
mod reads;
mod usage;

use crate::kind::{Kind, MOST_KEYS};
use crate::onlooker::Onlooker;
use crate::wrong::Wrong;
use guides::Guide;
use records::{Place, Station};
use std::alloc::{AllocError, Global};

// Its records lie on the heap, since a plan says how many there are. It also holds what the calls are judged by.
#[derive(Drop)]
pub struct Book<K, G> {
    places: Vec<Place<K>>,
    stations: Vec<Station<K>>,
    guide: G,
    // What list writes into.
    list: Vec<K>,
    onlooker: Onlooker,
    // The accepted steps.
    steps: u64,
}

impl<K: Kind, G: Guide + Drop> Book<K, G> {
    // The records of a book that is to be opened. Memory and the two counts have no more to do with one another, so
    // they stay three parameters.
    pub fn new(heap: Global, stations: usize, places: usize) -> Result<Book<K, G>, AllocError> {
        Ok(Book {
            places: vec![in heap; Place::blank(K::key(0)); places]?,
            stations: vec![in heap; Station { task: None }; stations]?,
            guide: G::new(),
            list: vec![in heap; K::key(0); MOST_KEYS]?,
            onlooker: Onlooker::new(),
            steps: 0,
        })
    }
}

impl<K: Kind, G: Guide> Book<K, G> {
    pub fn works(&self, station: usize) -> bool {
        self.onlooker.works(station)
    }

    pub fn is_idle(&self) -> bool {
        self.onlooker.is_idle()
    }

    // How many stations there are.
    pub fn size(&self) -> usize {
        self.stations.len()
    }

    // How many keys the book has.
    pub fn count(&self) -> usize {
        self.onlooker.contents.count()
    }

    // How many steps were accepted.
    pub fn steps(&self) -> u64 {
        self.steps
    }

    // What has to hold after every call.
    pub fn check(&self) -> Result<(), Wrong> {
        if !self.onlooker.agrees(&self.stations) {
            return Err(Wrong::Stations);
        }
        if self.is_stuck()? {
            return Err(Wrong::Stuck);
        }
        if self.onlooker.is_idle() {
            self.check_tidy()?;
        }
        Ok(())
    }
}
