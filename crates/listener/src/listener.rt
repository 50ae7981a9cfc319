// What every listener does.
ghost use Rattle.std.specs.Prelude.{◌≡◌, ◌+◌, length};
ghost use Rattle.model.specs.Ranges.{listed};
ghost use Rattle.listener.specs.Hearing.{Hearing, Kept, admits, added, removed, answered, SetLaws};

use model::kinds::Kind;
use model::ranges::Range;

// An addition or a removal that altered nothing.
#[derive(Clone, Copy, Debug, PartialEq, Eq)]
pub struct Refused;

// A listener is told of ranges that come and go. It takes those of some kinds, up to its capacity, and
// holds no two that overlap.
pub trait Listener {
    ghost hearing: { Self → Hearing };

    // Whether ranges of the kind are taken.
    fn takes(&self, kind: Kind) -> bool
        ensures { result ≡ (hearing self.now).kinds kind };

    // How many ranges can be held.
    fn capacity(&self) -> usize
        ensures { result ≡ (hearing self.now).capacity };

    // How many ranges are held.
    fn count(&self) -> usize
        ensures { result ≡ length (hearing self.now).held };

    // Takes the range in.
    fn add(&mut self, range: Range) -> Result<(), Refused>
        ensures answer { result ≡ answered (admits (hearing self.old) range) }
        ensures after { hearing self.new ≡ added (hearing self.old) range };

    // Lets the range go.
    fn remove(&mut self, range: Range) -> Result<(), Refused>
        ensures answer { result ≡ answered (listed (hearing self.old).held range) }
        ensures after { hearing self.new ≡ removed (hearing self.old) range };

    // For how many ranges more there is room.
    fn room(&self) -> usize
        ensures { length (hearing self.now).held + result ≡ (hearing self.now).capacity }
    {
        self.capacity() - self.count()
    }

    // Whether the range would be taken now: it is added and, if it was taken, removed again, which
    // leaves what was held before.
    fn would_take(&mut self, range: Range) -> bool
        ensures answer { result ≡ admits (hearing self.old) range }
        ensures after { hearing self.new ≡ hearing self.old }
        ensures set { SetLaws (hearing self.old) range }
    {
        if self.add(range).is_err() {
            return false;
        }
        let _ = self.remove(range);
        true
    }

    ghost kept: { (s : Self) → Kept (hearing s) };
}
