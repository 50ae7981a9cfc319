// Telling a listener a change list.
ghost use Rattle.std.specs.Prelude.{◌≡◌, length};
ghost use Rattle.diff.specs.Laws.{of_kinds};
ghost use Rattle.telling.specs.Telling.{told_one, told_all, FollowsMaps};

use listener::listener::Listener;
use model::changes::{Action, Change};
use model::ranges::Range;

// Tells a listener one entry, if it takes its kind.
fn tell_one<L: Listener>(listener: &mut L, change: Change)
    ensures { L.Listener.hearing listener.new ≡ told_one (L.Listener.hearing listener.old) change }
{
    let range = change.range();
    if !listener.takes(range.label.kind) {
        return;
    }
    let _ = match change.action() {
        Action::Removal => listener.remove(range),
        Action::Addition => listener.add(range),
    };
}

// Tells a listener the entries of the kinds it takes, in their order. If the list leads from one map to
// another, the listener follows, and refuses none of them.
pub fn tell<L: Listener>(listener: &mut L, list: &[Change])
    ensures after { L.Listener.hearing listener.new ≡ told_all (L.Listener.hearing listener.old) list.now }
    ensures follows { FollowsMaps (L.Listener.hearing listener.old) (L.Listener.hearing listener.new) list.now }
{
    for change in list {
        tell_one(listener, *change);
    }
}

// How many of the ranges are of kinds that a listener takes.
pub fn count_taken<L: Listener>(listener: &L, ranges: &[Range]) -> usize
    ensures { result ≡ length (of_kinds (L.Listener.hearing listener.now).kinds ranges.now) }
{
    ranges
        .iter()
        .filter(|range| listener.takes(range.label.kind))
        .count()
}
