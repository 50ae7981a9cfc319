// An offset as a label.
ghost use Rattle.interval_tests.specs.Offsets.{moved, alike};
ghost use Rattle.interval_tests.specs.SameOffset.{moved_zero, moved_sum, alike_exact};

use crate::offsets::Offset;
use interval::labels::{Label, SameLabel};

impl Label for Offset {
    ghost advanced = { moved };

    ghost zero = { moved_zero };

    ghost sum = { moved_sum };

    fn advance(&self, by: u64) -> Offset {
        Offset {
            value: self.value.wrapping_add(by),
        }
    }
}

impl SameLabel for Offset {
    ghost matches = { alike };

    ghost exact = { alike_exact };

    fn same(&self, other: &Offset) -> bool {
        *self == *other
    }
}
