// Runs of bytes between a buffer and a device of any bank.
ghost use Rattle.std.specs.Prelude.{◌≡◌, length};
ghost use Rattle.bank.specs.Alterations.{AltersRun};
ghost use Rattle.bank.specs.Transfers.{reach, loaded, Fills, stored};

use crate::bank::Bank;

// How many of `count` bytes from the offset on the device has. The casts in this file lose nothing: a
// place has as many bits as an offset.
fn run_length<B: Bank>(bank: &B, device: u16, offset: u64, count: usize) -> usize
    ensures { result ≡ reach (B.Bank.devices bank.now device) offset count }
{
    let rest = bank.len(device).saturating_sub(offset);
    count.min(rest as usize)
}

// Fills the buffer with the device's bytes from the offset on, and answers how many there were. The
// rest of the buffer stays.
pub fn load<B: Bank>(bank: &B, device: u16, offset: u64, out: &mut [u8]) -> usize
    ensures answer { result ≡ reach (B.Bank.devices bank.now device) offset (length out.old) }
    ensures after { out.new ≡ loaded (B.Bank.devices bank.now device) offset out.old }
    ensures fills { Fills (B.Bank.devices bank.now device) offset out.old out.new }
{
    let count = run_length(bank, device, offset, out.len());
    let run = &mut out[..count];
    // The place in the run says how far past the offset its byte is.
    for (i, slot) in run.iter_mut().enumerate() {
        if let Some(byte) = bank.read(device, offset + i as u64) {
            *slot = byte;
        }
    }
    count
}

// Writes the bytes in rising order from the offset on, as far as the device goes, and answers how
// many it had room for.
pub fn store<B: Bank>(bank: &mut B, device: u16, offset: u64, bytes: &[u8]) -> usize
    ensures answer { result ≡ reach (B.Bank.devices bank.old device) offset (length bytes.now) }
    ensures after { B.Bank.devices bank.new ≡ stored (B.Bank.devices bank.old) device offset bytes.now }
    ensures alters { AltersRun (B.Bank.devices bank.old) (B.Bank.devices bank.new) device offset bytes.now }
{
    let count = run_length(bank, device, offset, bytes.len());
    for (i, byte) in bytes[..count].iter().enumerate() {
        let _ = bank.write(device, offset + i as u64, *byte);
    }
    count
}
