// Carrying out a change list on the ranges that a caller's table holds.
ghost use Rattle.std.specs.Prelude.{◌≡◌, true, IfOk, MatchResult, None, Some, position as first_position};
ghost use Rattle.interval.specs.Maps.{live};
ghost use Rattle.interval.specs.Stretches.{ready};
ghost use Rattle.model.specs.Ranges.{same_range};
ghost use Rattle.replay.specs.CarryOut.{Carried, removed, fit, blame, carried, carry_from, counted, written, carry_answer};

use crate::failures::Failure;
use interval::maps::IntervalMap;
use interval::refusals::Refusal;
use model::changes::Change;
use model::places::Place;
pub use model::ranges::CAPACITY;
use model::ranges::Range;

type Held = IntervalMap<Place, CAPACITY>;

// Where the range stands among the held ones.
fn position(held: &Held, range: &Range) -> Option<usize>
    ensures { result ≡ first_position (λ stretch. same_range stretch range.now) (live held.now) }
{
    held.stretches().iter().position(|stretch| stretch == range)
}

// The range to be taken out is not held.
#[derive(Clone, Copy)]
struct NotHeld;

// Takes a held range out.
fn remove(held: &mut Held, range: &Range) -> Result<(), NotHeld>
    ensures { MatchResult result (λ _. removed (live held.old) range.now ≡ Some (live held.new)) (λ _. removed (live held.old) range.now ≡ None) }
{
    let at = position(held, range).ok_or(NotHeld)?;
    held.take_out(at);
    Ok(())
}

// What a refused put says of the entry. No `From`, which has no place for the entry's number.
fn failure_of(refusal: Refusal, entry: usize) -> Failure
    ensures { result ≡ blame entry refusal }
{
    match refusal {
        Refusal::Short => Failure::Full(entry),
        Refusal::Empty | Refusal::High | Refusal::Disorder | Refusal::Taken => {
            Failure::Entry(entry)
        }
    }
}

// Carries out one entry.
fn carry(held: &mut Held, change: Change, entry: usize) -> Result<(), Failure>
    ensures { Carried (fit CAPACITY entry (carried change (live held.old))) (live held.new) result }
{
    match change {
        Change::Removal(range) => remove(held, &range).map_err(|_| Failure::Entry(entry)),
        Change::Addition(range) => held
            .put(range)
            .map_err(|refusal| failure_of(refusal, entry)),
    }
}

// Carries out the entries in turn; a failure names its entry by the place in the list.
fn carry_all(held: &mut Held, changes: &[Change]) -> Result<(), Failure>
    ensures { Carried (carry_from CAPACITY 0 changes.now (live held.old)) (live held.new) result }
{
    for (i, change) in changes.iter().enumerate() {
        carry(held, *change, i)?;
    }
    Ok(())
}

// Carries out a change list on the first `used` records of the table, entry by entry, and answers
// how many ranges it then holds. A list that fails leaves the table as it was. The table is lent by
// the caller, who says how many of its records count.
pub fn carry_out(
    table: &mut [Range; CAPACITY],
    used: usize,
    changes: &[Change],
) -> Result<usize, Failure>
    ensures answer { result ≡ counted (carry_answer table.old used changes.now) }
    ensures after { table.new ≡ written table.old (carry_answer table.old used changes.now) }
    ensures order { IfOk result (λ n. ready table.new n ≡ true) }
{
    let mut held = Held::from_table(*table, used).map_err(|_| Failure::Disorder)?;
    carry_all(&mut held, changes)?;
    let live = held.stretches();
    table[..live.len()].copy_from_slice(live);
    Ok(live.len())
}
