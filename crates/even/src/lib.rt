// The even tree: a plain tree that records two heights for each place, and is made even by small corrections.
#![tactic(auto)]

mod balanced;
mod heights;
#[cfg(test)]
mod tests;

pub use balanced::Even;
pub use heights::{Heights, Sides};
