// One step of a station's work.
ghost use Rattle.engine.specs.Calling.{Steps};

use crate::seat::Seat;
use crate::settle::{settle, task_of};
use guides::Guide;
use orders::Order;
use records::{Place, Refusal, Station, Stepped};
use rules::follow_rule;

// One step of a station's work. NO STATION: there is no such station. IDLE: nothing is under way.
// DAMAGED: the step needs a place number that is not among the places, or the guide refuses.
pub fn step<K: Order, G: Guide>(
    places: &mut [Place<K>],
    stations: &mut [Station<K>],
    guide: &mut G,
    station: usize,
) -> Result<Stepped<K>, Refusal>
    ensures { Steps G.Guide.meaning K.Order.rank station places.old stations.old guide.old result places.new stations.new guide.new }
{
    let task = task_of(stations, station)?.ok_or(Refusal::Idle)?;
    let me = Seat::new(station);
    let outcome = follow_rule(places, guide, me.number, task)?;
    Ok(settle(places, stations, me, task, outcome))
}
