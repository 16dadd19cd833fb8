// The steps of a put and a strike that change the guide: attach and detach.
ghost use Rattle.std.specs.Prelude.{◌≡◌};
ghost use Rattle.records.specs.declared.outcome.Outcome.TheVariants.{Goes};
ghost use Rattle.records.specs.declared.record.Phase.TheVariants.{ReleaseNew, ReleaseVictim};
ghost use Rattle.records.specs.Records.{into};
ghost use Rattle.rules.specs.Stepping.{attach as attach_rule, detach as detach_rule, Guides};

use crate::places::place_at;
use guides::Guide;
use orders::Order;
use records::{Damage, Outcome, Phase, Place, Task, go_on};

// Attach the new place to the guide, between below and the new place's successor.
pub fn attach<K: Order, G: Guide>(
    places: &[Place<K>],
    guide: &mut G,
    task: Task<K>,
) -> Result<Outcome<K>, Damage>
    ensures { Guides G.Guide.meaning (Goes (into ReleaseNew task)) (attach_rule places.now task (G.Guide.meaning guide.old)) guide.old result guide.new }
{
    let Place { next, .. } = place_at(places, task.other)?;
    guide.attach(task.at, task.other, next)?;
    Ok(go_on(Phase::ReleaseNew, task))
}

// Detach the victim from the guide.
pub fn detach<K: Order, G: Guide>(guide: &mut G, task: Task<K>) -> Result<Outcome<K>, Damage>
    ensures { Guides G.Guide.meaning (Goes (into ReleaseVictim task)) (detach_rule task (G.Guide.meaning guide.old)) guide.old result guide.new }
{
    guide.detach(task.other)?;
    Ok(go_on(Phase::ReleaseVictim, task))
}
