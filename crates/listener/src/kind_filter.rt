// A listener over any listener, which takes fewer kinds.
ghost use Rattle.std.specs.Prelude.{◌≡◌};
ghost use Rattle.model.specs.Ranges.{listed};
ghost use Rattle.listener.specs.Hearing.{admits, added, removed, answered};
ghost use Rattle.listener.specs.Filtering.{chosen, narrowed, added_through};
ghost use Rattle.std.proofs.Common.{rules};

use crate::listener::{Listener, Refused};
use model::kinds::Kind;
use model::ranges::Range;

// A choice of kinds: a flag for each, since a set of three is no plainer.
#[derive(Clone, Copy)]
pub struct Kinds {
    pub ram: bool,
    pub rom: bool,
    pub reg: bool,
}

impl Kinds {
    // Whether the kind is chosen.
    pub fn has(&self, kind: Kind) -> bool
        ensures { result ≡ chosen self.now kind }
    {
        match kind {
            Kind::Ram => self.ram,
            Kind::Rom => self.rom,
            Kind::Reg => self.reg,
        }
    }
}

// Takes a kind if it is chosen and the listener below takes it, and is else as that one: also where
// it is set upon a listener that holds ranges of other kinds.
#[derive(Drop)]
pub struct KindFilter<L> {
    below: L,
    kinds: Kinds,
}

impl<L: Listener> KindFilter<L> {
    pub fn new(below: L, kinds: Kinds) -> KindFilter<L>
        ensures below { result.below ≡ below }
        ensures kinds { result.kinds ≡ kinds }
    {
        KindFilter { below, kinds }
    }

    // The listener below, with what it holds by now.
    pub fn into_inner(self) -> L
        ensures { result ≡ self.below }
    {
        self.below
    }
}

impl<L: Listener> Listener for KindFilter<L> {
    ghost hearing = { λ s. narrowed s.kinds (L.Listener.hearing s.below) };

    ghost kept = { Prim.search rules };

    fn takes(&self, kind: Kind) -> bool {
        self.kinds.has(kind) && self.below.takes(kind)
    }

    fn capacity(&self) -> usize {
        self.below.capacity()
    }

    fn count(&self) -> usize {
        self.below.count()
    }

    fn add(&mut self, range: Range) -> Result<(), Refused>
        ensures answer { result ≡ answered (admits (narrowed self.old.kinds (L.Listener.hearing self.old.below)) range) }
        ensures after { narrowed self.new.kinds (L.Listener.hearing self.new.below) ≡ added (narrowed self.old.kinds (L.Listener.hearing self.old.below)) range }
        ensures below { L.Listener.hearing self.new.below ≡ added_through self.old.kinds (L.Listener.hearing self.old.below) range }
        ensures kinds { self.new.kinds ≡ self.old.kinds }
    {
        if !self.kinds.has(range.label.kind) {
            return Err(Refused);
        }
        self.below.add(range)
    }

    fn remove(&mut self, range: Range) -> Result<(), Refused>
        ensures answer { result ≡ answered (listed (L.Listener.hearing self.old.below).held range) }
        ensures after { narrowed self.new.kinds (L.Listener.hearing self.new.below) ≡ removed (narrowed self.old.kinds (L.Listener.hearing self.old.below)) range }
        ensures below { L.Listener.hearing self.new.below ≡ removed (L.Listener.hearing self.old.below) range }
        ensures kinds { self.new.kinds ≡ self.old.kinds }
    {
        self.below.remove(range)
    }
}
