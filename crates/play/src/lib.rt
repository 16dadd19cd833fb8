// Plays a script on a book.
#![tactic(auto)]

mod book;
mod error;
mod player;
mod running;

pub use book::{Book, open_book, repeated};
pub use error::PlayError;
pub use player::Player;
pub use running::{MOST_STEPS, run};
