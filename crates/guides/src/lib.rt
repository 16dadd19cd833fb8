// What a guide promises, and the guides that keep it. A guide leads near a place and never sees a key.
#![tactic(auto)]

mod answer;
mod by_side;
mod ends;
mod guide;
mod line;
#[cfg(test)]
mod tests;

pub use answer::{Beside, GuideRefusal, Mended, Number, Side};
pub use by_side::BySide;
pub use ends::{HIGH, LOW};
pub use guide::Guide;
pub use line::Line;
