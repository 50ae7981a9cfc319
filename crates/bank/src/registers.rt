// Registers: device 0 alone, a byte each with its own mask of the bits that a write alters.
ghost use Rattle.std.specs.Prelude.{◌≡◌, length};
ghost use Rattle.std.specs.List.{slice_get};
ghost use Rattle.bank.specs.Devices.{single};
ghost use Rattle.bank.specs.Banks.{registers_of, cleared};
ghost use Rattle.bank.specs.Soundness.{registers_sound};
ghost use Rattle.bank.specs.declared.registers.TheConstants.{COUNT};

use crate::bank::{Bank, PastEnd};
use crate::chip::Chip;
use crate::lone::Lone;
use crate::register::Register;
use model::kinds::Kind;

// How many registers there are.
pub const COUNT: usize = 256;

#[derive(Drop)]
pub struct RegisterChip {
    registers: [Register; COUNT],
    ghost whole: { length registers ≡ COUNT },
}

pub type Registers = Lone<RegisterChip>;

impl Lone<RegisterChip> {
    // Registers that are 0, with these masks.
    pub fn new(masks: [u8; COUNT]) -> Registers
        ensures { ⟦<Registers as Bank>⟧.devices result ≡ single (cleared masks) }
    {
        // A repeat and a loop, which become wide moves; `map` would make the registers one at a time.
        let mut registers = [Register { value: 0, mask: 0 }; COUNT];
        for (place, mask) in masks.iter().enumerate() {
            registers[place] = Register {
                value: 0,
                mask: *mask,
            };
        }
        Lone {
            chip: RegisterChip { registers },
        }
    }
}

impl RegisterChip {
    // The register, or none past the last. A cast, since a place has as many bits as an offset.
    fn get(&self, offset: u64) -> Option<Register>
        ensures { result ≡ slice_get self.now.registers offset }
    {
        self.registers.get(offset as usize).copied()
    }
}

impl Chip for RegisterChip {
    ghost contents = { λ s. registers_of s.registers };

    ghost sound = { λ s. registers_sound s.registers s.whole };

    fn kind(&self) -> Kind {
        Kind::Reg
    }

    fn len(&self) -> u64 {
        self.registers.len() as u64
    }

    fn mask(&self, offset: u64) -> Option<u8> {
        self.get(offset).map(|register| register.mask)
    }

    fn read(&self, offset: u64) -> Option<u8> {
        self.get(offset).map(|register| register.value)
    }

    // By index, since a proof knows nothing of the element that `get_mut` lends.
    fn write(&mut self, offset: u64, byte: u8) -> Result<(), PastEnd> {
        if offset >= self.len() {
            return Err(PastEnd);
        }
        let at = offset as usize;
        self.registers[at] = self.registers[at].after(byte);
        Ok(())
    }
}
