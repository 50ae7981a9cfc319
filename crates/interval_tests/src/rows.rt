// The source of the examples.
ghost use Rattle.interval_tests.specs.Offsets.{shown};

use crate::offsets::Offset;
use interval::labels::Label;
use interval::sightings::Sighting;
use interval::stretches::Stretch;
use sweep::sources::Source;

// A source that shows one stretch, and is sighted address by address.
#[derive(Drop)]
pub struct Row<'a> {
    pub stretch: &'a Stretch<Offset>,
}

impl<'a> Source for Row<'a> {
    type Shown = Offset;

    ghost shows = { λ row. shown row.stretch.now };

    fn sight(&self, address: u64, limit: u64) -> Sighting<Offset> {
        let extent = limit.min(1);
        if !self.stretch.covers(address) {
            return Sighting::nothing(extent);
        }
        let label = self.stretch.label.advance(address - self.stretch.start);
        Sighting {
            label: Some(label),
            extent,
        }
    }
}
