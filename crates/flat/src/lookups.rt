// Looking into a flat map.
ghost use Rattle.std.specs.Prelude.{◌≡◌, ◌≤◌, length};
ghost use Rattle.interval.specs.Laws.{Finds};
ghost use Rattle.interval.specs.Stretches.{at, found};
ghost use Rattle.model.specs.Places.{moved};
ghost use Rattle.flat.specs.Laws.{OnlyMap};
ghost use Rattle.flat.specs.Maps.{ranges_of};

use crate::flat_map::FlatMap;
use interval::labels::Label;
use interval::ordered::Ordered;
use model::places::Place;
use model::ranges::Range;

impl FlatMap {
    // How many ranges there are.
    pub fn len(&self) -> usize
        ensures is { result ≡ length (ranges_of self.now) }
        ensures small { result ≤ 256 }
    {
        self.map.len()
    }

    // The ranges, rising.
    pub fn ranges(&self) -> &[Range]
        ensures { result.now ≡ ranges_of self.now }
    {
        self.map.stretches()
    }

    // The ranges as a view that knows their order. No other rising list of which none runs on into
    // the next gives each address the same.
    pub fn ordered(&self) -> Ordered<'_, Place>
        ensures is { result.live.now ≡ ranges_of self.now }
        ensures only { OnlyMap (at moved (ranges_of self.now)) (ranges_of self.now) }
    {
        self.map.ordered()
    }

    // The range that holds the address, if there is one, by halving.
    pub fn range_at(&self, address: u64) -> Option<Range>
        ensures is { result ≡ found (ranges_of self.now) address }
        ensures finds { Finds (ranges_of self.now) address result }
    {
        self.map.find(address)
    }

    // The place of the address, if it has one.
    pub fn find(&self, address: u64) -> Option<Place>
        ensures { result ≡ at moved (ranges_of self.now) address }
    {
        let range = self.range_at(address)?;
        Some(range.label.advance(address - range.start))
    }
}
