// Two banks as one: device 2n is device n of the first, and 2n + 1 device n of the second.
ghost use Rattle.std.specs.Prelude.{◌≡◌};
ghost use Rattle.bank.specs.Devices.{paired, Shares};
ghost use Rattle.bank.specs.Halves.{number_of};
ghost use Rattle.std.proofs.Common.{rules};

use crate::bank::{Bank, PastEnd};
use model::kinds::Kind;

#[derive(Drop)]
pub struct Pair<P, Q> {
    first: P,
    second: Q,
}

impl<P: Bank, Q: Bank> Pair<P, Q> {
    pub fn new(first: P, second: Q) -> Pair<P, Q>
        ensures meaning { paired (P.Bank.devices result.first) (Q.Bank.devices result.second) ≡ paired (P.Bank.devices first) (Q.Bank.devices second) }
        ensures shares { Shares (P.Bank.devices first) (Q.Bank.devices second) (paired (P.Bank.devices result.first) (Q.Bank.devices result.second)) }
    {
        Pair { first, second }
    }
}

// Which bank of a pair has a device, and its number there.
enum Half {
    First(u16),
    Second(u16),
}

impl Half {
    // By the remainder, which is how a pair numbers its devices.
    fn of(device: u16) -> Half
        ensures { number_of result ≡ device }
    {
        if device % 2 == 0 {
            Half::First(device / 2)
        } else {
            Half::Second(device / 2)
        }
    }
}

impl<P: Bank, Q: Bank> Bank for Pair<P, Q> {
    ghost devices = { λ s. paired (P.Bank.devices s.first) (Q.Bank.devices s.second) };

    ghost sound = { Prim.search rules };

    fn kind(&self, device: u16) -> Kind {
        match Half::of(device) {
            Half::First(number) => self.first.kind(number),
            Half::Second(number) => self.second.kind(number),
        }
    }

    fn len(&self, device: u16) -> u64 {
        match Half::of(device) {
            Half::First(number) => self.first.len(number),
            Half::Second(number) => self.second.len(number),
        }
    }

    fn mask(&self, device: u16, offset: u64) -> Option<u8> {
        match Half::of(device) {
            Half::First(number) => self.first.mask(number, offset),
            Half::Second(number) => self.second.mask(number, offset),
        }
    }

    fn read(&self, device: u16, offset: u64) -> Option<u8> {
        match Half::of(device) {
            Half::First(number) => self.first.read(number, offset),
            Half::Second(number) => self.second.read(number, offset),
        }
    }

    fn write(&mut self, device: u16, offset: u64, byte: u8) -> Result<(), PastEnd> {
        match Half::of(device) {
            Half::First(number) => self.first.write(number, offset, byte),
            Half::Second(number) => self.second.write(number, offset, byte),
        }
    }
}
