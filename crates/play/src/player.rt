// Plays the lines of a script, one by one.
ghost use Rattle.std.specs.Prelude.{◌≡◌, MatchOption, MatchResult};
ghost use Rattle.guides.specs.Straight.{straight};
ghost use Rattle.script.specs.Commands.{command_of};
ghost use Rattle.play.specs.Booked.{BeginsIn, RunsIn, LeavesIn};
ghost use Rattle.play.specs.Playing.{closed, said_begun, said_ran, said_left, told, MayLack, OpensOver, Calls, Plays};

use crate::book::{Book, open_book};
use crate::error::PlayError;
use guides::Line;
use records::Work;
use script::{Command, GuideName, LineRefusal, Said, read};
use std::alloc::{AllocError, Global};

// The book that a script works on, over the guide that it was opened with; none before the first accepted open. A caller
// may put in a book that it opened by itself, see whether one is open, and call it.
#[derive(Drop)]
pub struct Player {
    pub book: Option<Book<Line>>,
}

impl Player {
    // No book is open yet.
    pub fn new() -> Player
        ensures { result ≡ closed }
    {
        Player { book: None }
    }

    // Plays one line. A refused open leaves the book that stood.
    pub fn play(&mut self, heap: Global, line: &[u8]) -> Result<Said, AllocError>
        ensures { MatchResult result (λ said. Plays line.now self.old said self.new) (λ _. self.new ≡ self.old) }
    {
        match self.obey(heap, line) {
            Ok(said) => Ok(said),
            Err(PlayError::Refused(refusal)) => Ok(Said::Refused(refusal)),
            Err(PlayError::OutOfMemory(lack)) => Err(lack),
        }
    }

    // Does what a line says.
    fn obey(&mut self, heap: Global, line: &[u8]) -> Result<Said, PlayError>
        ensures { MatchOption (told result) (MayLack (command_of line.now) × (self.new ≡ self.old)) (λ said. Plays line.now self.old said self.new) }
    {
        match read(line).ok_or(LineRefusal::BadLine)? {
            Command::Open {
                stations,
                guide,
                places,
            } => self.open(heap, stations, guide, places),
            Command::Begin { station, work, key } => self.begin(station, work, key),
            Command::Run { station } => self.run(station),
            Command::Leave { station } => self.leave(station),
        }
    }

    fn open(
        &mut self,
        heap: Global,
        stations: u32,
        guide: GuideName,
        places: u32,
    ) -> Result<Said, PlayError>
        ensures { MatchOption (told result) (self.new ≡ self.old) (λ said. OpensOver stations guide places self.old said self.new) }
    {
        self.book = match guide {
            GuideName::Line => Some(open_book(heap, stations, places)?),
        };
        Ok(Said::Opened)
    }

    fn begin(&mut self, station: u32, work: Work, key: u32) -> Result<Said, PlayError>
        ensures { MatchOption (told result) ⊥ (λ said. Calls (BeginsIn station work key) said_begun self.old said self.new) }
    {
        let book = self.book.as_mut().ok_or(LineRefusal::BadLine)?;
        book.begin(station, work, key)?;
        Ok(Said::Begun)
    }

    fn run(&mut self, station: u32) -> Result<Said, PlayError>
        ensures { MatchOption (told result) ⊥ (λ said. Calls (RunsIn straight station) said_ran self.old said self.new) }
    {
        let book = self.book.as_mut().ok_or(LineRefusal::BadLine)?;
        Ok(Said::Ran(book.run(station)?))
    }

    fn leave(&mut self, station: u32) -> Result<Said, PlayError>
        ensures { MatchOption (told result) ⊥ (λ said. Calls (LeavesIn station) said_left self.old said self.new) }
    {
        let book = self.book.as_mut().ok_or(LineRefusal::BadLine)?;
        book.leave(station)?;
        Ok(Said::Left)
    }
}
