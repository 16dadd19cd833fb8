// Which rule of the step list applies.
ghost use Rattle.std.specs.Prelude.{◌≡◌, ℕ};
ghost use Rattle.guides.specs.Meaning.{Meaning};
ghost use Rattle.rules.specs.Stepping.{FollowsRule, back as back_rule, on as on_rule};

use crate::find::{back_after, back_change, back_look, check, down, enter, seek};
use crate::hang::{attach, detach};
use crate::hold::{lock, valid};
use crate::put::{link, link_back, put_end, release_new, take};
use crate::read::{first, first_next, on_after, on_look};
use crate::strike::{mark, release_victim, strike_end, take_victim, unlink, unlink_back};
use guides::Guide;
use orders::Order;
use records::{Damage, Outcome, Phase, Place, Task, Work, start_over};

// BACK, by work.
fn back<K: Order>(places: &[Place<K>], task: Task<K>) -> Result<Outcome<K>, Damage>
    ensures { (me : ℕ) (m : Meaning) → result ≡ back_rule K.Order.rank me places.now m task task.work }
{
    match task.work {
        Work::Put | Work::Strike => back_change(places, task),
        Work::Look => back_look(places, task),
        Work::First => Ok(start_over(task)),
        Work::After => back_after(places, task),
    }
}

// ON, by work.
fn on<K: Order>(places: &[Place<K>], task: Task<K>) -> Result<Outcome<K>, Damage>
    ensures { (me : ℕ) (m : Meaning) → result ≡ on_rule K.Order.rank me places.now m task task.work }
{
    match task.work {
        Work::Put | Work::Strike | Work::First => Ok(start_over(task)),
        Work::Look => on_look(places, task),
        Work::After => on_after(places, task),
    }
}

// Which rule applies, by phase: the step list itself. A phase is plain data, since a task lies in records that the
// caller lends and keeps between the steps.
pub fn follow_rule<K: Order, G: Guide>(
    places: &mut [Place<K>],
    guide: &mut G,
    me: u8,
    task: Task<K>,
) -> Result<Outcome<K>, Damage>
    ensures { FollowsRule G.Guide.meaning K.Order.rank me task places.old guide.old result places.new guide.new }
{
    match task.phase {
        Phase::Enter => Ok(enter(guide.start(), task)),
        Phase::Down => down(places, guide, task),
        Phase::Check => check(places, task),
        Phase::Back => back(places, task),
        Phase::On => on(places, task),
        Phase::Seek => seek(places, task),
        Phase::Lock => lock(places, me, task),
        Phase::Valid => valid(places, task),
        Phase::Take => take(places, me, task),
        Phase::Link => link(places, task),
        Phase::LinkBack => link_back(places, task),
        Phase::Attach => attach(places, guide, task),
        Phase::ReleaseNew => release_new(places, task),
        Phase::PutEnd => put_end(places, task),
        Phase::TakeVictim => take_victim(places, me, task),
        Phase::Mark => mark(places, task),
        Phase::UnlinkBack => unlink_back(places, task),
        Phase::Unlink => unlink(places, task),
        Phase::Detach => detach(guide, task),
        Phase::ReleaseVictim => release_victim(places, task),
        Phase::StrikeEnd => strike_end(places, task),
        Phase::First => first(places, task),
        Phase::FirstNext => first_next(places, task),
    }
}
