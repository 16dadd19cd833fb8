// What can be wrong with the index.
use thiserror::Error;

#[derive(Clone, Copy, Debug, Error)]
pub enum Wrong {
    #[error("the universe of keys does not rise")]
    Universe,
    #[error("open was refused")]
    NotOpened,
    #[error("a successor is not among the places")]
    NoPlace,
    #[error("High is not reached from Low")]
    Endless,
    #[error("the keys of the chain do not rise")]
    NotRising,
    #[error("the chain has a key that was never put")]
    ForeignKey,
    #[error("a place of the chain is not recorded as chained")]
    NotChained,
    #[error("the contents changed by a call that must not change them")]
    ChangedByOther,
    #[error("a work changed the contents twice")]
    ChangedTwice,
    #[error("a work changed the contents by another key than its own")]
    ChangedOtherKey,
    #[error("an answer was true at no moment of its work")]
    Untrue,
    #[error("a put or strike said yes and changed nothing")]
    YesUnchanged,
    #[error("a put or strike changed the contents and did not say yes")]
    NoChanged,
    #[error("a put said NO ROOM with a place free or its key there")]
    RoomLeft,
    #[error("an answer has another number of steps")]
    StepCount,
    #[error("a look waited or took too many steps")]
    SlowLook,
    #[error("a step waited for no other station")]
    WaitsFreely,
    #[error("a step moved though another station holds its lock")]
    MovesHeldUp,
    #[error("a step of a working station was refused")]
    StepRefused,
    #[error("a call was refused without cause, or not refused, or for another cause")]
    Refusal,
    #[error("a work was left after it had changed the contents")]
    LeftAfterChange,
    #[error("a station works that should be idle, or the reverse")]
    Stations,
    #[error("every put and strike is held up")]
    Stuck,
    #[error("no work is begun any more, and some do not end")]
    Unfinished,
    #[error("no station works and a lock is held")]
    LockLeft,
    #[error("no station works and a place is retired or in hand")]
    PlaceLeft,
    #[error("no station works and the guide has other places than the chain")]
    GuideAstray,
    #[error("list does not show the contents")]
    Listed,
    #[error("counts does not show how the places are used")]
    Counted,
}
