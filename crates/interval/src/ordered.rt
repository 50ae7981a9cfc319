// The live records of a table whose order is known.
ghost use Rattle.std.specs.Prelude.{◌≡◌, true};
ghost use Rattle.interval.specs.Stretches.{rising};

use crate::stretches::Stretch;

// The stretches rise without overlap, so that one can be found by halving. Whoever keeps the order
// makes this view of a table without a look at its records.
#[derive(Drop)]
pub struct Ordered<'a, L> {
    pub live: &'a [Stretch<L>],
    ghost rises: { rising 0 live.now ≡ true },
}
