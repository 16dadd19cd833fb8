// What an onlooker knows of a book who sees every call: the contents and the works under way.
use crate::keys::{Change, Keys};
use crate::watch::Watch;
use crate::wrong::Wrong;
use records::{MOST_STATIONS, Station};

#[derive(Drop)]
pub struct Onlooker {
    pub contents: Keys,
    // Beside the book's stations, as the onlooker sees the works and never what the book keeps of them.
    watches: [Option<Watch>; MOST_STATIONS],
}

impl Onlooker {
    // A book was opened.
    pub fn new() -> Onlooker {
        Onlooker {
            contents: Keys::new(),
            watches: [None; MOST_STATIONS],
        }
    }

    // The work of a station, if one is under way.
    pub fn watch(&self, station: usize) -> Option<&Watch> {
        self.watches.get(station)?.as_ref()
    }

    pub fn works(&self, station: usize) -> bool {
        self.watch(station).is_some()
    }

    pub fn set(&mut self, station: usize, watch: Option<Watch>) {
        if let Some(place) = self.watches.get_mut(station) {
            *place = watch;
        }
    }

    // No station works.
    pub fn is_idle(&self) -> bool {
        self.watches.iter().all(|watch| watch.is_none())
    }

    // The records show as working exactly the stations that work.
    pub fn agrees<K>(&self, stations: &[Station<K>]) -> bool {
        stations
            .iter()
            .enumerate()
            .all(|(i, station)| station.task.is_some() == self.works(i))
    }

    // The work of this station has made one more step, which alone may have changed the contents to these.
    pub fn see_step(&mut self, station: usize, contents: Keys) -> Result<(), Wrong> {
        let change = contents.change_since(&self.contents);
        match (self.watches.get_mut(station), change) {
            (Some(Some(watch)), _) => {
                watch.count_step();
                watch.note_change(change)?;
            }
            (_, Change::Same) => {}
            _ => return Err(Wrong::ChangedByOther),
        }
        self.contents = contents;
        self.note_all();
        Ok(())
    }

    // A moment after a call that changes no contents.
    pub fn see(&mut self, contents: Keys) -> Result<(), Wrong> {
        if contents != self.contents {
            return Err(Wrong::ChangedByOther);
        }
        self.note_all();
        Ok(())
    }

    fn note_all(&mut self) {
        for watch in self.watches.iter_mut().flatten() {
            watch.note(&self.contents);
        }
    }
}
