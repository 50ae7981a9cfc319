// Finding the stretch of an address.
ghost use Rattle.std.specs.Prelude.{◌≡◌, ◌<◌, ◌≤◌, true, length, take};
ghost use Rattle.interval.specs.Calls.{find_answer, Live};
ghost use Rattle.interval.specs.Edits.{ended, started};
ghost use Rattle.interval.specs.Laws.{Finds, FindStands};
ghost use Rattle.interval.specs.Stretches.{found, ready};

use crate::labels::Label;
use crate::ordered::Ordered;
use crate::refusals::Refusal;
use crate::stretches::{Stretch, check_ready};
use std::ops::Range;

impl<'a, L: Label> Ordered<'a, L> {
    // The live records of a table, if they are in order: one pass over them.
    pub fn check(table: &'a [Stretch<L>], used: usize) -> Result<Ordered<'a, L>, Refusal>
        ensures { Live table.now used result }
    {
        check_ready(table, used)?;
        Ok(Ordered::of(table, used))
    }

    // The live records of a table that is ready.
    pub(crate) fn of(table: &'a [Stretch<L>], used: usize) -> Ordered<'a, L>
        requires { ready table.now used ≡ true }
        ensures { result.live.now ≡ take used table.now }
    {
        Ordered {
            live: &table[0..used],
        }
    }

    // How many end at the address or before it, by halving.
    pub(crate) fn count_ended(&self, address: u64) -> usize
        ensures { result ≡ ended address self.now.live.now }
    {
        self.live.partition_point(|s| s.ends_by(address))
    }

    // How many start before the address, by halving.
    fn count_started(&self, address: u64) -> usize
        ensures { result ≡ started address self.now.live.now }
    {
        self.live.partition_point(|s| s.start < address)
    }

    // Those that hold an address of the span, by their places: as a range of places, since a type
    // that kept its order would have to become one at each use, and could not keep where it ends.
    pub(crate) fn overlap(&self, span: &Range<u64>) -> Range<usize>
        requires { span.now.start < span.now.end }
        ensures from { result.start ≡ ended span.now.start self.now.live.now }
        ensures to { result.end ≡ started span.now.end self.now.live.now }
        ensures order { result.start ≤ result.end }
        ensures within { result.end ≤ length self.now.live.now }
    {
        self.count_ended(span.start)..self.count_started(span.end)
    }

    // The stretch that holds the address, or none, by halving.
    pub fn find(&self, address: u64) -> Option<Stretch<L>>
        ensures value { result ≡ found self.now.live.now address }
        ensures finds { Finds self.now.live.now address result }
    {
        // Only the first that does not end by the address can hold it.
        match self.live.get(self.count_ended(address)) {
            Some(s) if s.covers(address) => Some(*s),
            _ => None,
        }
    }
}

// The stretch that holds the address, or none.
pub fn find<L: Label>(
    table: &[Stretch<L>],
    used: usize,
    address: u64,
) -> Result<Option<Stretch<L>>, Refusal>
    ensures value { result ≡ find_answer table.now used address }
    ensures stands { FindStands table.now used address result }
{
    let ordered = Ordered::check(table, used)?;
    Ok(ordered.find(address))
}
