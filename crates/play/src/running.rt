// A run of a station's work.
ghost use Rattle.play.specs.Running.{Runs};

use engine::step;
use guides::Guide;
use orders::Order;
use records::{Place, Refusal, Station, Stepped};

// A run takes at most so many steps.
pub const MOST_STEPS: u32 = 5000;

// Steps a station's work until an end, a wait, a refusal or 5,000 steps. Places, stations and guide are three
// parameters, as at the calls of the engine, whose caller lends each by itself.
pub fn run<K: Order, G: Guide>(
    places: &mut [Place<K>],
    stations: &mut [Station<K>],
    guide: &mut G,
    station: usize,
) -> Result<Stepped<K>, Refusal>
    ensures { Runs G.Guide.meaning K.Order.rank station places.old stations.old guide.old result places.new stations.new guide.new }
{
    for taken in 0..MOST_STEPS {
        match step(places, stations, guide, station)? {
            Stepped::Moved => {}
            stopped => return Ok(stopped),
        }
    }
    Ok(Stepped::Moved)
}
