// Walking a source, stretch by stretch.
ghost use Rattle.std.specs.Prelude.{◌≡◌, ◌+◌, ◌^◌, ◌<◌, ◌≤◌, ◌++◌, length};
ghost use Rattle.std.specs.Iterator.{YieldsFirst, item_count};
ghost use Rattle.std.specs.Option.{option_to_list};
ghost use Rattle.sweep.specs.Maps.{extension, stretches, to_come};

use crate::sources::Source;
use interval::labels::{Label, SameLabel};
use interval::stretches::Stretch;

// The stretches of what a source shows below `size`: the next address, and the stretch at hand, which
// may still grow.
#[derive(Drop)]
pub(crate) struct Walk<'a, S: Source> {
    source: &'a S,
    size: u64,
    address: u64,
    last: Option<Stretch<S::Shown>>,
}

// The stretch with the next one behind it, if it runs on into it.
fn extended<L: SameLabel>(s: &Stretch<L>, next: &Stretch<L>) -> Option<Stretch<L>>
    requires { next.now.start + next.now.length < 2 ^ 64 }
    ensures { result ≡ extension L.Label.advanced L.SameLabel.matches s.now next.now }
{
    if !s.runs_onto(next) {
        return None;
    }
    Some(Stretch {
        start: s.start,
        length: s.length + next.length,
        label: s.label,
    })
}

impl<'a, S: Source> Walk<'a, S> {
    pub(crate) fn new(source: &'a S, size: u64) -> Walk<'a, S>
        ensures { to_come S.Shown.Label.advanced S.Shown.SameLabel.matches (S.Source.shows result.source.now) result.size result.address result.last ≡ stretches S.Shown.Label.advanced S.Shown.SameLabel.matches (S.Source.shows source.now) 0 size }
    {
        Walk {
            source,
            size,
            address: 0,
            last: None,
        }
    }

    // Goes on by one sighting, and gives the stretch at hand if that has ended it.
    fn step(&mut self) -> Option<Stretch<S::Shown>>
        requires { self.old.address < self.old.size }
        ensures gives { to_come S.Shown.Label.advanced S.Shown.SameLabel.matches (S.Source.shows self.old.source.now) self.old.size self.old.address self.old.last ≡ option_to_list result ++ to_come S.Shown.Label.advanced S.Shown.SameLabel.matches (S.Source.shows self.new.source.now) self.new.size self.new.address self.new.last }
        ensures on { self.old.address < self.new.address }
        ensures within { self.new.address ≤ self.new.size }
        ensures size { self.new.size ≡ self.old.size }
    {
        let start = self.address;
        let seen = self.source.sight(start, self.size - start);
        self.address = start + seen.extent;
        let Some(label) = seen.label else {
            return None;
        };
        let next = Stretch {
            start,
            length: seen.extent,
            label,
        };
        let Some(s) = self.last else {
            self.last = Some(next);
            return None;
        };
        if let Some(longer) = extended(&s, &next) {
            self.last = Some(longer);
            return None;
        }
        self.last = Some(next);
        Some(s)
    }
}

impl<'a, S: Source> Iterator for Walk<'a, S> {
    type Item = Stretch<S::Shown>;

    ghost next_gives = { YieldsFirst (λ w. to_come S.Shown.Label.advanced S.Shown.SameLabel.matches (S.Source.shows w.source.now) w.size w.address w.last) };

    ghost remaining = { item_count (λ w. to_come S.Shown.Label.advanced S.Shown.SameLabel.matches (S.Source.shows w.source.now) w.size w.address w.last) };

    fn next(&mut self) -> Option<Stretch<S::Shown>> {
        // Not each sighting ends a stretch.
        while self.address < self.size {
            if let Some(s) = self.step() {
                return Some(s);
            }
        }
        self.last.take()
    }
}
