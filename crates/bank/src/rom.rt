// ROM: device 0 alone, with a copy of the caller's first bytes, which no write alters.
ghost use Rattle.std.specs.Prelude.{◌≡◌};
ghost use Rattle.bank.specs.Devices.{single};
ghost use Rattle.bank.specs.Banks.{rom_of, burnt};
ghost use Rattle.bank.specs.Soundness.{rom_sound};

use crate::bank::{Bank, PastEnd};
use crate::chip::Chip;
use crate::front::Front;
use crate::lone::Lone;
use model::kinds::Kind;

// Beside RAM's chip, since the two differ in kind, in mask and in how they write.
#[derive(Drop)]
pub struct RomChip {
    front: Front,
}

pub type Rom = Lone<RomChip>;

impl Lone<RomChip> {
    // ROM with a copy of the bytes, of the first 8,192 where there are more.
    pub fn new(bytes: &[u8]) -> Rom
        ensures { ⟦<Rom as Bank>⟧.devices result ≡ single (burnt bytes.now) }
    {
        Lone {
            chip: RomChip {
                front: Front::copy_of(bytes),
            },
        }
    }
}

impl Chip for RomChip {
    ghost contents = { λ s. rom_of s.front };

    ghost sound = { λ s. rom_sound s.front };

    fn kind(&self) -> Kind {
        Kind::Rom
    }

    fn len(&self) -> u64 {
        self.front.len()
    }

    fn mask(&self, offset: u64) -> Option<u8> {
        self.front.get(offset).map(|_| 0)
    }

    fn read(&self, offset: u64) -> Option<u8> {
        self.front.get(offset)
    }

    // The byte stays, since none of its bits is in its mask.
    fn write(&mut self, offset: u64, _byte: u8) -> Result<(), PastEnd> {
        self.front.get(offset).map(|_| ()).ok_or(PastEnd)
    }
}
