// Changing interval maps.
ghost use Rattle.std.specs.Prelude.{◌≡◌, ◌+◌, List, ◌++◌, take, drop};
ghost use Rattle.interval.specs.Edits.{join as the_join};
ghost use Rattle.interval.specs.Laws.{Maximal, OnFree};
ghost use Rattle.interval.specs.Stretches.{at};
ghost use Rattle.interval.specs.Maps.{live, put_into, cut_from, paint_into, done, kept, LaidOver, CutAway};

use crate::edits;
use crate::joins::join_live;
use crate::labels::{Label, SameLabel};
use crate::maps::IntervalMap;
use crate::refusals::Refusal;
use crate::stretches::Stretch;

impl<L: Label, const N: usize> IntervalMap<L, N> {
    // Adds a stretch, where its addresses are free.
    pub fn put(&mut self, new: Stretch<L>) -> Result<(), Refusal>
        ensures answer { result ≡ done (put_into N (live self.old) new) }
        ensures after { live self.new ≡ kept (live self.old) (put_into N (live self.old) new) }
        ensures stands { LaidOver L.Label.advanced (live self.old) new (live self.new) result }
        ensures free { OnFree L.Label.advanced (live self.old) new result }
    {
        self.used = edits::put(&mut self.records, self.used, new)?;
        Ok(())
    }

    // Takes the addresses out; the remainders on both sides stay.
    pub fn cut(&mut self, start: u64, length: u64) -> Result<(), Refusal>
        ensures answer { result ≡ done (cut_from L.Label.advanced N (live self.old) start length) }
        ensures after { live self.new ≡ kept (live self.old) (cut_from L.Label.advanced N (live self.old) start length) }
        ensures stands { CutAway L.Label.advanced (live self.old) start length (live self.new) result }
    {
        self.used = edits::cut(&mut self.records, self.used, start, length)?;
        Ok(())
    }

    // Cuts the addresses of a stretch out, and puts it there.
    pub fn paint(&mut self, new: Stretch<L>) -> Result<(), Refusal>
        ensures answer { result ≡ done (paint_into L.Label.advanced N (live self.old) new) }
        ensures after { live self.new ≡ kept (live self.old) (paint_into L.Label.advanced N (live self.old) new) }
        ensures stands { LaidOver L.Label.advanced (live self.old) new (live self.new) result }
    {
        self.used = edits::paint(&mut self.records, self.used, new)?;
        Ok(())
    }

    // Takes out the stretch at a place in the order, if there is one.
    pub fn take_out(&mut self, place: usize)
        ensures { live self.new ≡ take place (live self.old) ++ drop (place + 1) (live self.old) }
    {
        if place < self.used {
            self.records.copy_within(place + 1..self.used, place);
            self.used -= 1;
        }
    }
}

impl<L: SameLabel, const N: usize> IntervalMap<L, N> {
    // Makes one of touching stretches whose labels run on.
    pub fn join(&mut self)
        ensures after { live self.new ≡ the_join L.Label.advanced L.SameLabel.matches (live self.old) }
        ensures maximal { Maximal L.Label.advanced L.SameLabel.matches (at L.Label.advanced (live self.old)) (live self.new) }
        ensures only { (xs : List _) → Maximal L.Label.advanced L.SameLabel.matches (at L.Label.advanced (live self.old)) xs → xs ≡ live self.new }
    {
        self.used = join_live(&mut self.records, self.used);
    }
}
