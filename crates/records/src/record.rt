// The records that the index works on. They are lent by the caller at each call.
ghost use Rattle.std.specs.Prelude.{◌≡◌};
ghost use Rattle.records.specs.Records.{blank};

use guides::{LOW, Number};

// The index serves at most so many stations.
pub const MOST_STATIONS: usize = 16;

// What a station wants done. A work holds no key itself: begin is given a key with every work, and first ignores it.
#[derive(Clone, Copy, PartialEq, Eq, Debug)]
pub enum Work {
    // Add a key.
    Put,
    // Take a key away.
    Strike,
    // Is the key there?
    Look,
    // The smallest key.
    First,
    // The smallest key above the given one.
    After,
}

// Where a work stands in the step list: the rule that its next step follows.
#[derive(Clone, Copy, PartialEq, Eq, Debug)]
pub enum Phase {
    Enter,
    Down,
    Check,
    Back,
    On,
    Seek,
    Lock,
    Valid,
    Take,
    Link,
    LinkBack,
    Attach,
    ReleaseNew,
    PutEnd,
    TakeVictim,
    Mark,
    UnlinkBack,
    Unlink,
    Detach,
    ReleaseVictim,
    StrikeEnd,
    First,
    FirstNext,
}

// What a place from 2 on is used for. Low and High are chained.
#[derive(Clone, Copy, PartialEq, Eq, Debug)]
pub enum Status {
    Free,
    // Taken and not yet linked, or unlinked and not yet retired.
    InHand,
    Chained,
    // Struck and not yet reusable: the stations whose works have to end first. A flag for each station and no set of the
    // library, since records lie with the caller and are copied without a heap.
    Retired([bool; MOST_STATIONS]),
}

// A place, the node of the chain. Low is place 0 and High is place 1; their keys mean nothing.
#[derive(Clone, Copy, PartialEq, Eq, Debug)]
pub struct Place<K> {
    pub key: K,
    pub next: Number,
    pub prev: Number,
    // Struck: the key no longer counts.
    pub marked: bool,
    // The station that holds the lock.
    pub lock: Option<u8>,
    pub status: Status,
}

// A work under way.
#[derive(Clone, Copy, PartialEq, Eq, Debug)]
pub struct Task<K> {
    pub work: Work,
    pub key: K,
    pub phase: Phase,
    // The place that the work stands on; from SEEK on the one below the key.
    pub at: Number,
    // The place that a put adds or a strike takes away. Low until it is known, and no Option: no rule reads it before one
    // has written it, so each that reads it would only get a case that never comes.
    pub other: Number,
    // DOWN steps since ENTER.
    pub downs: u8,
    // The work's own steps so far.
    pub steps: u64,
    // Some place was retired while this work was under way.
    pub awaited: bool,
}

// A client of the index, with at most one work under way.
#[derive(Clone, Copy, PartialEq, Eq, Debug)]
pub struct Station<K> {
    pub task: Option<Task<K>>,
}

impl<K> Place<K> {
    // A place that holds nothing but a key.
    pub fn blank(key: K) -> Place<K>
        ensures { result ≡ blank key }
    {
        Place {
            key,
            next: LOW,
            prev: LOW,
            marked: false,
            lock: None,
            status: Status::Free,
        }
    }
}
