// A listener that holds its ranges in numbered slots.
ghost use Rattle.std.specs.Prelude.{◌≡◌, Bool, true, length};
ghost use Rattle.interval.specs.Stretches.{stop};
ghost use Rattle.interval.specs.Edits.{free};
ghost use Rattle.model.specs.declared.kinds.Kind.{Kind};
ghost use Rattle.model.specs.Ranges.{listed};
ghost use Rattle.listener.specs.Hearing.{admits, added, removed, answered, vacant, SetLaws};
ghost use Rattle.listener.specs.Slots.{held_in, lone, slot_in, free_in, table, Seated, Stays};
ghost use Rattle.listener.specs.Slotting.{slots_kept};

use crate::listener::{Listener, Refused};
use model::kinds::Kind;
use model::ranges::Range;
use std::marker::PhantomData;

// Which kinds a table takes, by its type.
pub trait KindSet {
    ghost taken: { Kind → Bool };

    fn takes(kind: Kind) -> bool
        ensures { result ≡ taken kind };
}

// N slots, each free or with a range; no two of the ranges overlap. A range takes a free slot, and
// stays in it until it is removed.
#[derive(Drop)]
pub struct Slots<K, const N: usize> {
    slots: [Option<Range>; N],
    count: usize,
    kinds: PhantomData<K>,
    ghost whole: { length slots ≡ N },
    ghost apart: { lone slots ≡ true },
    ghost counted: { count ≡ length (held_in slots) },
}

impl<K: KindSet, const N: usize> Slots<K, N> {
    // A table whose slots are all free.
    pub(crate) fn vacant() -> Slots<K, N>
        ensures { table K.taken N result.slots ≡ vacant K.taken N }
    {
        Slots {
            slots: [None; N],
            count: 0,
            kinds: PhantomData,
        }
    }

    // The slot that has the range.
    pub(crate) fn find(&self, range: &Range) -> Option<usize>
        ensures is { result ≡ slot_in self.now.slots range.now }
        ensures seated { Seated N self.now.slots range.now }
    {
        self.slots.iter().position(|slot| *slot == Some(*range))
    }

    // The first free slot.
    fn find_free(&self) -> Option<usize>
        ensures { result ≡ free_in self.now.slots }
    {
        self.slots.iter().position(|slot| slot.is_none())
    }

    // Whether the range overlaps none that a slot has.
    fn is_clear(&self, range: &Range) -> bool
        ensures { result ≡ free range.now.start (stop range.now) (held_in self.now.slots) }
    {
        self.slots.iter().flatten().all(|held| range.is_apart(held))
    }
}

impl<K: KindSet, const N: usize> Listener for Slots<K, N> {
    ghost hearing = { λ s. table K.taken N s.slots };

    ghost kept = { λ s. slots_kept _ _ s.slots s.whole s.apart };

    fn takes(&self, kind: Kind) -> bool {
        K::takes(kind)
    }

    fn capacity(&self) -> usize {
        N
    }

    fn count(&self) -> usize {
        self.count
    }

    // No range that is held leaves its slot.
    fn add(&mut self, range: Range) -> Result<(), Refused>
        ensures answer { result ≡ answered (admits (table K.taken N self.old.slots) range) }
        ensures after { table K.taken N self.new.slots ≡ added (table K.taken N self.old.slots) range }
        ensures stays { Stays self.old.slots self.new.slots }
    {
        if !K::takes(range.label.kind) || !range.is_lawful() || !self.is_clear(&range) {
            return Err(Refused);
        }
        let free = self.find_free().ok_or(Refused)?;
        self.slots[free] = Some(range);
        self.count += 1;
        Ok(())
    }

    // No other range leaves its slot.
    fn remove(&mut self, range: Range) -> Result<(), Refused>
        ensures answer { result ≡ answered (listed (held_in self.old.slots) range) }
        ensures after { table K.taken N self.new.slots ≡ removed (table K.taken N self.old.slots) range }
        ensures stays { Stays self.old.slots self.new.slots }
    {
        let slot = self.find(&range).ok_or(Refused)?;
        self.slots[slot] = None;
        self.count -= 1;
        Ok(())
    }

    // As for every listener; and no range that is held leaves its slot. The trait has this body too, but
    // can't promise that of every listener.
    fn would_take(&mut self, range: Range) -> bool
        ensures answer { result ≡ admits (table K.taken N self.old.slots) range }
        ensures after { table K.taken N self.new.slots ≡ table K.taken N self.old.slots }
        ensures set { SetLaws (table K.taken N self.old.slots) range }
        ensures stays { Stays self.old.slots self.new.slots }
    {
        if self.add(range).is_err() {
            return false;
        }
        let _ = self.remove(range);
        true
    }
}
