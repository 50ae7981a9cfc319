// Making interval maps, and looking into them.
ghost use Rattle.std.specs.Prelude.{◌≡◌, ◌≤◌, [], length};
ghost use Rattle.interval.specs.Stretches.{found};
ghost use Rattle.interval.specs.Laws.{Finds};
ghost use Rattle.interval.specs.Maps.{live, Tabled};

use crate::labels::Label;
use crate::maps::IntervalMap;
use crate::ordered::Ordered;
use crate::refusals::Refusal;
use crate::stretches::{Stretch, check_ready};

impl<L: Label, const N: usize> IntervalMap<L, N> {
    // No stretch; `filler` stands in the records that do not count.
    pub fn new(filler: Stretch<L>) -> IntervalMap<L, N>
        ensures { live result ≡ [] }
    {
        IntervalMap {
            records: [filler; N],
            used: 0,
        }
    }

    // The first `used` records of a table, if they are in order.
    pub fn from_table(records: [Stretch<L>; N], used: usize) -> Result<IntervalMap<L, N>, Refusal>
        ensures { Tabled records used result }
    {
        check_ready(&records, used)?;
        Ok(IntervalMap { records, used })
    }

    // The stretches, rising.
    pub fn stretches(&self) -> &[Stretch<L>]
        ensures { result.now ≡ live self.now }
    {
        &self.records[..self.used]
    }

    // How many stretches there are.
    pub fn len(&self) -> usize
        ensures is { result ≡ length (live self.now) }
        ensures fits { result ≤ N }
    {
        self.used
    }

    // The stretches as a view that knows their order.
    pub fn ordered(&self) -> Ordered<'_, L>
        ensures { result.live.now ≡ live self.now }
    {
        Ordered {
            live: self.stretches(),
        }
    }

    // The stretch that holds the address, or none, by halving.
    pub fn find(&self, address: u64) -> Option<Stretch<L>>
        ensures value { result ≡ found (live self.now) address }
        ensures finds { Finds (live self.now) address result }
    {
        self.ordered().find(address)
    }
}
