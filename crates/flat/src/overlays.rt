// Laying one flat map over another.
ghost use Rattle.std.specs.Prelude.{◌≡◌};
ghost use Rattle.interval.specs.Stretches.{at};
ghost use Rattle.sweep.specs.Sights.{Sees};
ghost use Rattle.model.specs.Places.{moved};
ghost use Rattle.flat.specs.Laws.{Flattened};
ghost use Rattle.flat.specs.Maps.{ranges_of, fitting, told};
ghost use Rattle.flat.specs.Overlays.{over, overlay as the_overlay, OverlayLaws};

use crate::flat_map::FlatMap;
use crate::flatten::flattened;
use interval::labels::Label;
use interval::ordered::Ordered;
use interval::sightings::Sighting;
use interval::stretches::TOP;
use model::faults::Fault;
use model::places::Place;
use sweep::sources::Source;

// The place of an address, if a range holds it, and for how many addresses on, up to `limit`, it runs
// on or there is none; by halving. Address and limit stand apart, as a source is asked for them.
fn sight_among(ranges: &Ordered<Place>, address: u64, limit: u64) -> Sighting<Place>
    ensures { Sees moved (at moved ranges.now.live.now) address limit result }
{
    let Some(range) = ranges.rest_from(address).first() else {
        return Sighting::nothing(limit);
    };
    if address < range.start {
        return Sighting::nothing(limit.min(range.start - address));
    }
    let passed = address - range.start;
    Sighting {
        label: Some(range.label.advance(passed)),
        extent: limit.min(range.length - passed),
    }
}

// Two maps, of which the upper one hides the lower.
#[derive(Drop)]
struct Layers<'a, 'b> {
    upper: &'a FlatMap,
    lower: &'b FlatMap,
}

impl<'a, 'b> Source for Layers<'a, 'b> {
    type Shown = Place;

    ghost shows = { λ v. over (at moved (ranges_of v.upper.now)) (at moved (ranges_of v.lower.now)) };

    fn sight(&self, address: u64, limit: u64) -> Sighting<Place> {
        let seen = sight_among(&self.upper.ordered(), address, limit);
        match seen.label {
            Some(_) => seen,
            None => sight_among(&self.lower.ordered(), address, seen.extent),
        }
    }
}

impl FlatMap {
    // This map over the lower one, if that has at most 256 ranges: of every address the first place
    // found.
    pub fn overlay(&self, lower: &FlatMap) -> Result<FlatMap, Fault>
        ensures is { told result ≡ fitting (the_overlay (ranges_of self.now) (ranges_of lower.now)) }
        ensures stands { Flattened (over (at moved (ranges_of self.now)) (at moved (ranges_of lower.now))) result }
        ensures laws { OverlayLaws }
    {
        flattened(&Layers { upper: self, lower }, TOP)
    }
}
