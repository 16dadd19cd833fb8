// Opening a book, with the promises that hold of every run of calls on it.
ghost use Rattle.engine.specs.Calling.{opening, Opens};
ghost use Rattle.promises.specs.Alone.{AStationAloneFindsASet};
ghost use Rattle.promises.specs.Made.{CallsMakeRuns};
ghost use Rattle.promises.specs.Promised.{Promises};
ghost use Rattle.promises.specs.Statuses.{StatusesAreExact};

use guides::Guide;
use orders::Order;
use records::{Place, Refusal, Station};

// Opens a book over these places, stations and guide, as the engine's open does. Whatever calls follow, by any
// stations in any order, they make a run, the promises hold of it, and every status is exact; a station that works
// alone finds a sorted set.
pub fn open<K: Order, G: Guide>(
    places: &mut [Place<K>],
    stations: &mut [Station<K>],
    guide: &mut G,
) -> Result<(), Refusal>
    ensures opens { Opens G.Guide.meaning (opening G.Guide.CAPACITY places.old stations.old) places.old stations.old guide.old result places.new stations.new guide.new }
    ensures runs { CallsMakeRuns K.Order.rank G.Guide.CAPACITY G.Guide.meaning }
    ensures promises { Promises K.Order.rank }
    ensures statuses { StatusesAreExact K.Order.rank }
    ensures alone { AStationAloneFindsASet K.Order.rank }
{
    engine::open(places, stations, guide)
}
