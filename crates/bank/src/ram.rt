// RAM: device 0 alone, whose bytes are the front of an array.
ghost use Rattle.std.specs.Prelude.{◌≡◌};
ghost use Rattle.bank.specs.Devices.{single};
ghost use Rattle.bank.specs.Banks.{ram_of, zeroed, shown_for};
ghost use Rattle.bank.specs.Soundness.{ram_sound};

use crate::bank::{Bank, PastEnd};
use crate::chip::Chip;
use crate::front::{CAPACITY, Front};
use crate::lone::Lone;
use model::kinds::Kind;

#[derive(Drop)]
pub struct RamChip {
    front: Front,
}

pub type Ram = Lone<RamChip>;

impl Lone<RamChip> {
    // RAM that shows `len` zeros; a length of 0 or above 8,192 counts as 8,192.
    pub fn new(len: u64) -> Ram
        ensures { ⟦<Ram as Bank>⟧.devices result ≡ single (zeroed (shown_for len)) }
    {
        let front = Front::zeros(shown_length(len));
        Lone {
            chip: RamChip { front },
        }
    }
}

// Every length has an answer, so it is taken by its range and a cast that loses nothing.
fn shown_length(len: u64) -> usize
    ensures { result ≡ shown_for len }
{
    match len as usize {
        shown @ 1..=CAPACITY => shown,
        _ => CAPACITY,
    }
}

impl Chip for RamChip {
    ghost contents = { λ s. ram_of s.front };

    ghost sound = { λ s. ram_sound s.front };

    fn kind(&self) -> Kind {
        Kind::Ram
    }

    fn len(&self) -> u64 {
        self.front.len()
    }

    fn mask(&self, offset: u64) -> Option<u8> {
        self.front.get(offset).map(|_| 0xff)
    }

    fn read(&self, offset: u64) -> Option<u8> {
        self.front.get(offset)
    }

    fn write(&mut self, offset: u64, byte: u8) -> Result<(), PastEnd> {
        self.front.set(offset, byte)
    }
}
