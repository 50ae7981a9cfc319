// A bank: numbered devices, each with a kind, its bytes, and for each byte a mask of the bits that
// a write alters.
ghost use Rattle.std.specs.Prelude.{◌≡◌, ℕ, length};
ghost use Rattle.std.specs.List.{slice_get};
ghost use Rattle.bank.specs.Alterations.{Alters};
ghost use Rattle.bank.specs.Answers.{writing};
ghost use Rattle.bank.specs.Devices.{Device, Sound, wrote};

use model::kinds::Kind;

// The refusal of an offset past the bytes of the device.
#[derive(Clone, Copy, Debug, PartialEq, Eq)]
pub struct PastEnd;

// A device and an offset stand apart in each call: callers keep the device and count the offset on.
pub trait Bank {
    // What the bank means. A number that it gives no device has the absent one.
    ghost devices: { Self → ℕ → Device };

    fn kind(&self, device: u16) -> Kind
        ensures { result ≡ (devices self.now device).kind };

    // How many bytes the device has.
    fn len(&self, device: u16) -> u64
        ensures { result ≡ length (devices self.now device).bytes };

    // The bits of a byte that a write alters, or none past the bytes.
    fn mask(&self, device: u16, offset: u64) -> Option<u8>
        ensures { result ≡ slice_get (devices self.now device).masks offset };

    // The byte, or none past the bytes.
    fn read(&self, device: u16, offset: u64) -> Option<u8>
        ensures { result ≡ slice_get (devices self.now device).bytes offset };

    // Takes the bits of the byte's mask from `byte`, or refuses past the bytes.
    fn write(&mut self, device: u16, offset: u64, byte: u8) -> Result<(), PastEnd>
        ensures answer { result ≡ writing (devices self.old device) offset }
        ensures after { devices self.new ≡ wrote (devices self.old) device offset byte }
        ensures alters { Alters (devices self.old) (devices self.new) device offset byte };

    ghost sound: { (s : Self) (n : ℕ) → Sound (devices s n) };
}
