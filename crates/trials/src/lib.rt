// Trials of the whole index on its own records: single steps, every refusal, every bound.
#![tactic(auto)]

#[cfg(test)]
mod book;
#[cfg(test)]
mod bounds;
#[cfg(test)]
mod keys;
#[cfg(test)]
mod stations;
