// A register: a byte, and the mask of its bits that a write alters.
ghost use Rattle.std.specs.Prelude.{◌≡◌, ◌<◌};
ghost use Rattle.bank.specs.Devices.{masked};

#[derive(Clone, Copy)]
pub struct Register {
    pub(crate) value: u8,
    pub(crate) mask: u8,
    ghost small: { value < 256 },
    ghost narrow: { mask < 256 },
}

impl Register {
    // The register once `byte` is written: the bits of the mask are the byte's, and the others stay.
    pub(crate) fn after(self, byte: u8) -> Register
        ensures value { result.value ≡ masked self.value self.mask byte }
        ensures mask { result.mask ≡ self.mask }
    {
        Register {
            value: (self.value & !self.mask) | (byte & self.mask),
            mask: self.mask,
        }
    }
}
