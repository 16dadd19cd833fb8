// The lines that are printed.
ghost use Rattle.std.specs.Prelude.{◌≡◌, IfOk, Some, string_bytes};
ghost use Rattle.script.specs.Entries.{heading, line_refusal_label, said_word, said_key, said_steps, number_or_dash, entry_bytes};

use orders::Ingredient;
use records::{Answer, Refusal, Stepped};
use std::alloc::{AllocError, Global};
use std::error::Error;
use std::fmt;

// Why a line was refused.
#[derive(Clone, Copy, PartialEq, Eq, Debug)]
pub enum LineRefusal {
    // It has no form that the script's rules allow.
    BadLine,
    // The call that it makes was refused.
    Call(Refusal),
}

// What a line came to.
#[derive(Clone, Copy, PartialEq, Eq, Debug)]
pub enum Said {
    Opened,
    Begun,
    // A station took a step.
    Ran(Stepped<Ingredient>),
    Left,
    // An answer like the others: each line of a script prints one, and none of them ends it.
    Refused(LineRefusal),
}

// A printed line.
#[derive(Clone, Copy, PartialEq, Eq, Debug)]
pub struct Entry {
    // The number of the script's line, from 1 after the names; 0 where the whole script is refused.
    // No Option: the printed column is a number in each line.
    pub line: u32,
    pub said: Said,
}

// A number, or none.
#[derive(Clone, Copy, PartialEq, Eq, Debug)]
struct Column(Option<u64>);

// The first printed line.
pub fn heading() -> &'static str
    ensures { result.now ≡ heading }
{
    "line answer key steps"
}

// Two matches, as in records and guides: the definition lists number and name together, and a call gives one.
impl LineRefusal {
    // The refusal's number.
    pub fn number(self) -> u8
        ensures { result ≡ (line_refusal_label self).number }
    {
        match self {
            LineRefusal::BadLine => 11,
            LineRefusal::Call(refusal) => refusal.number(),
        }
    }

    // The refusal's name.
    pub fn name(self) -> &'static str
        ensures { result.now ≡ (line_refusal_label self).name }
    {
        match self {
            LineRefusal::BadLine => "BAD LINE",
            LineRefusal::Call(refusal) => refusal.name(),
        }
    }
}

// Written out, since a derived text stands in no contract.
impl fmt::Display for LineRefusal {
    ghost output = { λ refusal. Some (line_refusal_label refusal).name };

    fn fmt<W: fmt::Write>(&self, f: &mut fmt::Formatter<W>) -> fmt::Result {
        f.write_str(self.name())
    }
}

impl Error for LineRefusal {}

impl Said {
    // The key that it tells.
    fn key(self) -> Option<u64>
        ensures { result ≡ said_key self }
    {
        match self {
            Said::Ran(Stepped::Ended(Answer::Found(key), _)) => Some(u64::from(key.0)),
            _ => None,
        }
    }

    // The steps of the work that it ended.
    fn steps(self) -> Option<u64>
        ensures { result ≡ said_steps self }
    {
        match self {
            Said::Ran(Stepped::Ended(_, steps)) => Some(steps),
            _ => None,
        }
    }
}

impl Entry {
    // The printed line, without its line feed.
    pub fn text(&self, heap: Global) -> Result<String, AllocError>
        ensures { IfOk result (λ s. string_bytes s ≡ entry_bytes self.now) }
    {
        format!(in heap; "{self}")
    }
}

// Written out, since a derived text stands in no contract.
impl fmt::Display for Said {
    ghost output = { λ said. Some (said_word said) };

    fn fmt<W: fmt::Write>(&self, f: &mut fmt::Formatter<W>) -> fmt::Result {
        match self {
            Said::Opened => f.write_str("opened"),
            Said::Begun => f.write_str("begun"),
            Said::Ran(stepped) => f.write_str(stepped.word()),
            Said::Left => f.write_str("left"),
            Said::Refused(refusal) => {
                let number = refusal.number();
                write!(f, "refused-{number}")
            }
        }
    }
}

// Written out, since a derived text stands in no contract.
impl fmt::Display for Column {
    ghost output = { λ column. Some (number_or_dash column.0) };

    fn fmt<W: fmt::Write>(&self, f: &mut fmt::Formatter<W>) -> fmt::Result {
        match self.0 {
            Some(number) => write!(f, "{number}"),
            None => f.write_str("-"),
        }
    }
}

// Written out, since a derived text stands in no contract.
impl fmt::Display for Entry {
    ghost output = { λ entry. Some (entry_bytes entry) };

    fn fmt<W: fmt::Write>(&self, f: &mut fmt::Formatter<W>) -> fmt::Result {
        let line = self.line;
        let said = self.said;
        let key = Column(said.key());
        let steps = Column(said.steps());
        write!(f, "{line} {said} {key} {steps}")
    }
}
