// The plain tree: a guide that leads from place to place as a search tree does. It is never made even.
#![tactic(auto)]

#[cfg(test)]
mod tests;
mod tree;

pub use tree::Tree;
