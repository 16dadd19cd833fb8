// Scripts: the text that calls the index, and the lines that are printed.
#![tactic(auto)]

mod command;
mod entry;
#[cfg(test)]
mod tests;
mod word;

pub use command::{Command, GuideName, MOST_BYTES, lines_of, read};
pub use entry::{Entry, LineRefusal, Said, heading};
pub use word::{Word, first_line, first_word};
