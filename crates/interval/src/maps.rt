// Interval maps that hold their own records.
ghost use Rattle.std.specs.Prelude.{◌≡◌, ◌≤◌, true, length, take, ⊤};
ghost use Rattle.interval.specs.Stretches.{rising};

use crate::stretches::Stretch;
use std::alloc::AllocError;

// At most N stretches that rise without overlap. Of `records` only the first `used` count.
pub struct IntervalMap<L, const N: usize> {
    pub(crate) records: [Stretch<L>; N],
    pub(crate) used: usize,
    ghost whole: { length records ≡ N },
    ghost fits: { used ≤ N },
    ghost rises: { rising 0 (take used records) ≡ true },
}

impl<L: Copy, const N: usize> Copy for IntervalMap<L, N> {}

// By hand, since no derive writes it for a struct with a ghost field and a type parameter.
impl<L: Copy, const N: usize> Clone for IntervalMap<L, N> {
    ghost is_clone = { λ x y. y ≡ x };

    ghost is_infallible = { λ _. ⊤ };

    fn clone(&self) -> Result<IntervalMap<L, N>, AllocError> {
        Ok(*self)
    }
}
