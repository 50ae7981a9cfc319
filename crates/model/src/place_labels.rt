// A place as the label of a stretch: along it the offset advances, modulo 2^64, and the rest stays.
ghost use Rattle.std.specs.Prelude.{◌≡◌, ◌+◌, ◌%◌, ◌^◌};
ghost use Rattle.model.specs.Places.{moved, same_place};
ghost use Rattle.std.proofs.Common.{rules};
ghost use Rattle.model.specs.SamePlace;

use crate::places::Place;
use interval::labels::{Label, SameLabel};

impl Label for Place {
    ghost advanced = { moved };

    ghost zero = { Prim.search rules };

    ghost sum = { Prim.search rules };

    fn advance(&self, by: u64) -> Place
        ensures moves { result ≡ moved self.now by }
        ensures offset { result.offset ≡ (self.now.offset + by) % 2 ^ 64 }
    {
        Place {
            leaf: self.leaf,
            device: self.device,
            offset: self.offset.wrapping_add(by),
            kind: self.kind,
            writes: self.writes,
        }
    }
}

// The sameness is the derived equality; `exact` adds that two places it calls equal are one.
impl SameLabel for Place {
    ghost matches = { same_place };

    ghost exact = { SamePlace.places };

    fn same(&self, other: &Place) -> bool {
        *self == *other
    }
}
