// The change list between two maps.
ghost use Rattle.std.specs.Prelude.{◌≡◌, ◌≤◌, ◌++◌, length, drop, IfOk};
ghost use Rattle.diff.specs.ChangeLists.{ranges, changes, counts as counts_of, list_answer, list_after};
ghost use Rattle.diff.specs.Laws.{entries, Replays, Succeeds, RunsReplay, OneRule, Counted, Fewest, ToldByKind};

use crate::counts::Counts;
use crate::merge::{Missing, write_missing};
use interval::ordered::Ordered;
use model::changes::{Action, Change};
use model::faults::Fault;
use model::places::Place;

// Counts the entries of the list. The two maps are asked in either order, so no type holds both.
fn count_changes(old: &Ordered<Place>, new: &Ordered<Place>) -> Counts
    ensures { result ≡ counts_of (ranges old.now) (ranges new.now) }
{
    Counts {
        removed: Missing::between(old, new).count(),
        added: Missing::between(new, old).count(),
    }
}

// Writes the entries, for which there is room.
fn write_changes(old: &Ordered<Place>, new: &Ordered<Place>, counts: Counts, list: &mut [Change])
    requires counts { counts ≡ counts_of (ranges old.now) (ranges new.now) }
    requires room { length (changes (ranges old.now) (ranges new.now)) ≤ length list.old }
    ensures { list.new ≡ changes (ranges old.now) (ranges new.now) ++ drop (length (changes (ranges old.now) (ranges new.now))) list.old }
{
    let (removals, additions) = list.split_at_mut(counts.removed);
    write_missing(Action::Removal, old, new, removals);
    write_missing(Action::Addition, new, old, additions);
}

// Writes the removals of the old ranges that the new map lacks, then the additions of the new ones
// that the old map lacks, each rising, and counts both. A list that is too short stays as it was.
pub fn change_list(
    old: &Ordered<Place>,
    new: &Ordered<Place>,
    list: &mut [Change],
) -> Result<Counts, Fault>
    ensures answer { result ≡ list_answer (ranges old.now) (ranges new.now) (length list.old) }
    ensures after { list.new ≡ list_after (ranges old.now) (ranges new.now) list.old }
    ensures counts { IfOk result (λ c. Counted c (entries c list.new)) }
    ensures replays { IfOk result (λ c. Replays (ranges old.now) (ranges new.now) (entries c list.new)) }
    ensures fewest { IfOk result (λ c. Fewest (ranges old.now) (ranges new.now) (entries c list.new)) }
    ensures successive { IfOk result (λ c. Succeeds (ranges old.now) (ranges new.now) (entries c list.new)) }
    ensures kinds { IfOk result (λ c. ToldByKind (ranges old.now) (ranges new.now) (entries c list.new)) }
    ensures runs { RunsReplay }
    ensures rule { OneRule }
{
    let counts = count_changes(old, new);
    if !counts.fit(list.len()) {
        return Err(Fault::ListShort);
    }
    write_changes(old, new, counts, list);
    Ok(counts)
}
