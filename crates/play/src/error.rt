// Why a line, or an open, came to nothing.
ghost use Rattle.std.specs.Prelude.{◌≡◌};
ghost use Rattle.script.specs.declared.entry.LineRefusal.TheVariants.{Call};
ghost use Rattle.play.specs.declared.error.PlayError.TheVariants.{Refused, OutOfMemory};

use records::Refusal;
use script::LineRefusal;
use std::alloc::AllocError;

// A refusal is told, and the script goes on; without memory it ends.
#[derive(Clone, Copy, PartialEq, Eq, Debug)]
pub enum PlayError {
    Refused(LineRefusal),
    OutOfMemory(AllocError),
}

// Written out, since a derived conversion says in no contract what it gives.
impl From<LineRefusal> for PlayError {
    ghost from_gives = { λ refusal e. e ≡ Refused refusal };

    fn from(refusal: LineRefusal) -> PlayError {
        PlayError::Refused(refusal)
    }
}

// Written out, since a derived conversion says in no contract what it gives.
impl From<Refusal> for PlayError {
    ghost from_gives = { λ refusal e. e ≡ Refused (Call refusal) };

    fn from(refusal: Refusal) -> PlayError {
        PlayError::Refused(LineRefusal::Call(refusal))
    }
}

// Written out, since a derived conversion says in no contract what it gives.
impl From<AllocError> for PlayError {
    ghost from_gives = { λ lack e. e ≡ OutOfMemory lack };

    fn from(lack: AllocError) -> PlayError {
        PlayError::OutOfMemory(lack)
    }
}
