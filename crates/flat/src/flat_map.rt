// The ranges of a flat map.
ghost use Rattle.std.specs.Prelude.{◌≡◌, true};
ghost use Rattle.interval.specs.Maps.{live};
ghost use Rattle.flat.specs.Ranges.{settled};

use interval::maps::IntervalMap;
use model::places::Place;
use model::ranges::CAPACITY;

// At most 256 ranges that rise without overlap, of which none runs on into the next.
#[derive(Clone, Copy)]
pub struct FlatMap {
    pub(crate) map: IntervalMap<Place, CAPACITY>,
    ghost apart: { settled (live map) ≡ true },
}
