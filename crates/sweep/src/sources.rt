// What a sweep asks of its source.
ghost use Rattle.std.specs.Prelude.{ℕ, Option};
ghost use Rattle.sweep.specs.Sights.{Sees};

use interval::labels::{Label, SameLabel};
use interval::sightings::Sighting;

// What shows a label or none at each address.
pub trait Source {
    type Shown: SameLabel;

    ghost shows: { Self → ℕ → Option Self.Shown };

    fn sight(&self, address: u64, limit: u64) -> Sighting<Self::Shown>
        ensures { Sees Self.Shown.Label.advanced (shows self.now) address limit result };
}
