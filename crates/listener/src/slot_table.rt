// A listener for memory.
ghost use Rattle.std.specs.Prelude.{◌≡◌};
ghost use Rattle.listener.specs.Hearing.{vacant};
ghost use Rattle.listener.specs.Slots.{slot_in, memory_kind, Seated};

use crate::listener::Listener;
use crate::slots::{KindSet, Slots};
use model::kinds::Kind;
use model::ranges::Range;

// Ram and rom are taken.
#[derive(Clone, Copy)]
pub struct MemoryKinds;

impl KindSet for MemoryKinds {
    ghost taken = { memory_kind };

    fn takes(kind: Kind) -> bool {
        match kind {
            Kind::Ram | Kind::Rom => true,
            Kind::Reg => false,
        }
    }
}

// Up to 32 ranges of ram and rom.
pub type SlotTable = Slots<MemoryKinds, 32>;

impl Slots<MemoryKinds, 32> {
    pub fn new() -> SlotTable
        ensures { ⟦<SlotTable as Listener>⟧.hearing result ≡ vacant memory_kind 32 }
    {
        Slots::vacant()
    }

    // The number of the range's slot, if the range is held.
    pub fn slot_of(&self, range: &Range) -> Option<usize>
        ensures is { result ≡ slot_in self.now.slots range.now }
        ensures seated { Seated 32 self.now.slots range.now }
    {
        self.find(range)
    }
}
