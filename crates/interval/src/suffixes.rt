// What a rising list has from an address on.
ghost use Rattle.std.specs.Prelude.{◌≡◌, drop};
ghost use Rattle.interval.specs.Edits.{ended};

use crate::labels::Label;
use crate::ordered::Ordered;
use crate::stretches::Stretch;

impl<'a, L: Label> Ordered<'a, L> {
    // The stretches that do not end at the address or before it, by halving.
    #[tactic(auto, using(crate::proofs::Finding::ended_within))]
    pub fn rest_from(&self, address: u64) -> &[Stretch<L>]
        ensures { result.now ≡ drop (ended address self.now.live.now) self.now.live.now }
    {
        &self.live[self.count_ended(address)..]
    }
}
