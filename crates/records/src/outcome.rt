// What a rule decides about its task.
ghost use Rattle.std.specs.Prelude.{◌≡◌};
ghost use Rattle.records.specs.declared.outcome.Outcome.TheVariants.{Goes};
ghost use Rattle.records.specs.Records.{into, moved_to, first_phase as first_phase_of, start_over as start_over_rule};

use crate::answer::Answer;
use crate::record::{Phase, Task, Work};
use guides::Number;
use orders::Order;

#[derive(Clone, Copy, PartialEq, Eq, Debug)]
pub enum Outcome<K> {
    // The work goes on, with this task.
    Goes(Task<K>),
    // Another station holds the lock that is wanted; the task stays as it is.
    Waits,
    // The work ends with this answer.
    Ends(Answer<K>),
    // A strike ends with yes, and this place is retired.
    Retires(Number),
}

// The work goes on in another phase.
pub fn go_on<K: Order>(phase: Phase, task: Task<K>) -> Outcome<K>
    ensures { result ≡ Goes (into phase task) }
{
    Outcome::Goes(Task { phase, ..task })
}

// The work goes on at another place.
pub fn go_to<K: Order>(at: Number, task: Task<K>) -> Outcome<K>
    ensures { result ≡ Goes (moved_to at task) }
{
    Outcome::Goes(Task { at, ..task })
}

// First begins at FIRST, the others at ENTER.
pub fn first_phase(work: Work) -> Phase
    ensures { result ≡ first_phase_of work }
{
    match work {
        Work::First => Phase::First,
        Work::Put | Work::Strike | Work::Look | Work::After => Phase::Enter,
    }
}

// A work that has no rule for its phase starts over. No work that was begun comes to that.
pub fn start_over<K: Order>(task: Task<K>) -> Outcome<K>
    ensures { result ≡ start_over_rule task }
{
    go_on(first_phase(task.work), task)
}
