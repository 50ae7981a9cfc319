// Two writes as one.
ghost use Rattle.std.specs.Prelude.{◌≡◌};
ghost use Rattle.bank.specs.JointWrites.{TwoBytes, joint_answer, wrote_both};

use crate::bank::{Bank, PastEnd};

// A byte of a device, and what is to be written there.
#[derive(Clone, Copy)]
pub struct ByteWrite {
    pub device: u16,
    pub offset: u64,
    pub byte: u8,
}

// Does both writes, the first first, or neither where one of them is past its device's bytes. The
// order matters only if they name one byte.
pub fn write_both<B: Bank>(bank: &mut B, first: ByteWrite, second: ByteWrite) -> Result<(), PastEnd>
    ensures answer { result ≡ joint_answer (B.Bank.devices bank.old) first second }
    ensures after { B.Bank.devices bank.new ≡ wrote_both (B.Bank.devices bank.old) first second }
    ensures order { TwoBytes first second → B.Bank.devices bank.new ≡ wrote_both (B.Bank.devices bank.old) second first }
{
    if first.offset >= bank.len(first.device) {
        return Err(PastEnd);
    }
    if second.offset >= bank.len(second.device) {
        return Err(PastEnd);
    }
    bank.write(first.device, first.offset, first.byte)?;
    bank.write(second.device, second.offset, second.byte)
}
