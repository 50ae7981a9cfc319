// A chip: one device by itself, before a bank gives it a number.
ghost use Rattle.std.specs.Prelude.{◌≡◌, length};
ghost use Rattle.std.specs.List.{slice_get};
ghost use Rattle.bank.specs.Answers.{writing};
ghost use Rattle.bank.specs.Devices.{Device, Sound, put};

use crate::bank::PastEnd;
use model::kinds::Kind;

pub trait Chip {
    // What the chip holds.
    ghost contents: { Self → Device };

    fn kind(&self) -> Kind
        ensures { result ≡ (contents self.now).kind };

    fn len(&self) -> u64
        ensures { result ≡ length (contents self.now).bytes };

    // The bits of a byte that a write alters, or none past the bytes.
    fn mask(&self, offset: u64) -> Option<u8>
        ensures { result ≡ slice_get (contents self.now).masks offset };

    // The byte, or none past the bytes.
    fn read(&self, offset: u64) -> Option<u8>
        ensures { result ≡ slice_get (contents self.now).bytes offset };

    // Takes the bits of the byte's mask from `byte`, or refuses past the bytes.
    fn write(&mut self, offset: u64, byte: u8) -> Result<(), PastEnd>
        ensures answer { result ≡ writing (contents self.old) offset }
        ensures after { contents self.new ≡ put (contents self.old) offset byte };

    ghost sound: { (s : Self) → Sound (contents s) };
}
