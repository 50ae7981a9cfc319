// A bank of one chip: it is device 0, and every other number is absent.
ghost use Rattle.std.specs.Prelude.{◌≡◌, ◌≢◌};
ghost use Rattle.std.specs.Option.{MatchOption};
ghost use Rattle.bank.specs.Devices.{single};
ghost use Rattle.bank.specs.Soundness.{single_sound};

use crate::bank::{Bank, PastEnd};
use crate::chip::Chip;
use model::kinds::Kind;

#[derive(Drop)]
pub struct Lone<C> {
    pub(crate) chip: C,
}

impl<C: Chip> Lone<C> {
    // The chip, if the number is its own.
    fn chip_at(&self, device: u16) -> Option<&C>
        ensures { MatchOption result (device ≢ 0) (λ chip. (device ≡ 0) × (chip.now ≡ self.now.chip)) }
    {
        if device == 0 { Some(&self.chip) } else { None }
    }
}

impl<C: Chip> Bank for Lone<C> {
    ghost devices = { λ s. single (C.contents s.chip) };

    ghost sound = { λ s. single_sound (C.contents s.chip) (C.sound s.chip) };

    fn kind(&self, device: u16) -> Kind {
        self.chip_at(device).map_or(Kind::Rom, |chip| chip.kind())
    }

    fn len(&self, device: u16) -> u64 {
        self.chip_at(device).map_or(0, |chip| chip.len())
    }

    fn mask(&self, device: u16, offset: u64) -> Option<u8> {
        self.chip_at(device)?.mask(offset)
    }

    fn read(&self, device: u16, offset: u64) -> Option<u8> {
        self.chip_at(device)?.read(offset)
    }

    fn write(&mut self, device: u16, offset: u64, byte: u8) -> Result<(), PastEnd> {
        if device == 0 {
            self.chip.write(offset, byte)
        } else {
            Err(PastEnd)
        }
    }
}
