// The records that the index works on, and what its calls answer.
#![tactic(auto)]

mod answer;
mod outcome;
mod record;

pub use answer::{Answer, Damage, Refusal, Stepped};
pub use outcome::{Outcome, first_phase, go_on, go_to, start_over};
pub use record::{MOST_STATIONS, Phase, Place, Station, Status, Task, Work};
