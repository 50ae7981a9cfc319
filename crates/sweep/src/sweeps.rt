// Sweeping a source.
ghost use Rattle.std.specs.Prelude.{◌≡◌, ◌^◌, ◌≤◌, ◌++◌, length, drop, nat_le};
ghost use Rattle.interval.specs.Calls.{fitted, counted, written};
ghost use Rattle.sweep.specs.Laws.{Swept};
ghost use Rattle.sweep.specs.Maps.{stretches, sweep_answer};

use crate::sources::Source;
use crate::walks::Walk;
use interval::labels::{Label, SameLabel};
use interval::refusals::Refusal;
use interval::stretches::{Stretch, TOP};

// Whether what is shown below `size` is at most `room` stretches.
fn fits<S: Source>(source: &S, size: u64, room: usize) -> bool
    ensures { result ≡ nat_le (length (stretches S.Shown.Label.advanced S.Shown.SameLabel.matches (S.Source.shows source.now) 0 size)) room }
{
    Walk::new(source, size).nth(room).is_none()
}

// Writes the stretches of what is shown below `size`, for which there is room, and answers how many they are.
fn fill<S: Source>(source: &S, size: u64, table: &mut [Stretch<S::Shown>]) -> usize
    requires { length (stretches S.Shown.Label.advanced S.Shown.SameLabel.matches (S.Source.shows source.now) 0 size) ≤ length table.old }
    ensures count { result ≡ length (stretches S.Shown.Label.advanced S.Shown.SameLabel.matches (S.Source.shows source.now) 0 size) }
    ensures after { table.new ≡ stretches S.Shown.Label.advanced S.Shown.SameLabel.matches (S.Source.shows source.now) 0 size ++ drop result table.old }
{
    // The count is the answer; and a proof loses what a loop writes through `iter_mut` beside another iterator.
    let mut count = 0;
    for s in Walk::new(source, size) {
        table[count] = s;
        count += 1;
    }
    count
}

// A sweep of a size that is not too high. Each pass begins a walk of its own, since it uses it up.
fn sweep_checked<S: Source>(
    source: &S,
    size: u64,
    table: &mut [Stretch<S::Shown>],
) -> Result<usize, Refusal>
    requires { size ≤ 2 ^ 40 }
    ensures count { result ≡ counted (fitted table.old (stretches S.Shown.Label.advanced S.Shown.SameLabel.matches (S.Source.shows source.now) 0 size)) }
    ensures after { table.new ≡ written table.old (fitted table.old (stretches S.Shown.Label.advanced S.Shown.SameLabel.matches (S.Source.shows source.now) 0 size)) }
    ensures stands { Swept S.Shown.Label.advanced S.Shown.SameLabel.matches (S.Source.shows source.now) size table.old table.new result }
{
    if !fits(source, size, table.len()) {
        return Err(Refusal::Short);
    }
    Ok(fill(source, size, table))
}

// Writes what the source shows below `size` into the front of the table, as the maximal stretches of it,
// and answers how many they are.
pub fn sweep<S: Source>(
    source: &S,
    size: u64,
    table: &mut [Stretch<S::Shown>],
) -> Result<usize, Refusal>
    ensures count { result ≡ counted (sweep_answer S.Shown.Label.advanced S.Shown.SameLabel.matches (S.Source.shows source.now) size table.old) }
    ensures after { table.new ≡ written table.old (sweep_answer S.Shown.Label.advanced S.Shown.SameLabel.matches (S.Source.shows source.now) size table.old) }
    ensures stands { Swept S.Shown.Label.advanced S.Shown.SameLabel.matches (S.Source.shows source.now) size table.old table.new result }
{
    if size > TOP {
        return Err(Refusal::High);
    }
    sweep_checked(source, size, table)
}
