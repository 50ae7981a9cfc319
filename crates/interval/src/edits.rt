// Put, cut and paint.
ghost use Rattle.std.specs.Prelude.{◌≡◌, ◌<◌, ◌≤◌, true, length, Ok};
ghost use Rattle.std.specs.List.{between as part};
ghost use Rattle.interval.specs.Edits.{left, right, first_left, last_right};
ghost use Rattle.interval.specs.Laws.{Laid, WasFree, CutOut};
ghost use Rattle.interval.specs.Stretches.{ready};
ghost use Rattle.interval.specs.Calls.{checked, fitted, counted, written, replaced, put_goal, put_answer, cut_goal, cut_answer, paint_goal, paint_answer};

use crate::labels::Label;
use crate::ordered::Ordered;
use crate::refusals::Refusal;
use crate::splices::splice;
use crate::stretches::{Stretch, TOP, check_ready};
use std::ops::Range;

// The refusals that all edits share.
fn check<L>(table: &[Stretch<L>], used: usize, start: u64, length: u64) -> Result<(), Refusal>
    ensures { result ≡ checked table.now used start length }
{
    if length == 0 {
        return Err(Refusal::Empty);
    }
    if start > TOP || length > TOP - start {
        return Err(Refusal::High);
    }
    check_ready(table, used)
}

// Adds a stretch, where its addresses are free.
pub fn put<L: Label>(
    table: &mut [Stretch<L>],
    used: usize,
    new: Stretch<L>,
) -> Result<usize, Refusal>
    ensures count { result ≡ counted (put_answer table.old used new) }
    ensures after { table.new ≡ written table.old (put_answer table.old used new) }
    ensures stands { Laid L.Label.advanced table.old used new table.new result }
    ensures free { WasFree L.Label.advanced table.old used new result }
{
    check(table, used, new.start, new.length)?;
    put_checked(table, used, new)
}

// A put that `check` allows. The lent table and its count stay apart, since a type that kept both
// with their order would hold a `&mut` beside a ghost field, which gets no proof.
fn put_checked<L: Label>(
    table: &mut [Stretch<L>],
    used: usize,
    new: Stretch<L>,
) -> Result<usize, Refusal>
    requires { checked table.old used new.start new.length ≡ Ok tt }
    ensures count { result ≡ counted (put_goal table.old used new) }
    ensures after { table.new ≡ written table.old (put_goal table.old used new) }
    ensures stands { Laid L.Label.advanced table.old used new table.new result }
    ensures free { WasFree L.Label.advanced table.old used new result }
{
    let span = new.start..new.start + new.length;
    let held = Ordered::of(table, used).overlap(&span);
    if !held.is_empty() {
        return Err(Refusal::Taken);
    }
    splice(table, used, &held, None, Some(new), None)
}

// What the stretch has before the address.
fn left_of<L: Copy>(s: &Stretch<L>, address: u64) -> Option<Stretch<L>>
    ensures { result ≡ left address s.now }
{
    if s.start >= address {
        return None;
    }
    Some(Stretch {
        start: s.start,
        length: address - s.start,
        label: s.label,
    })
}

// What the stretch has from the address on, if it holds it.
fn right_of<L: Label>(s: &Stretch<L>, address: u64) -> Option<Stretch<L>>
    ensures { result ≡ right L.Label.advanced address s.now }
{
    if !s.covers(address) {
        return None;
    }
    let skipped = address - s.start;
    Some(Stretch {
        start: address,
        length: s.length - skipped,
        label: s.label.advance(skipped),
    })
}

// What the first of the held records has before the span, and the last behind it.
fn remainders<L: Label>(
    table: &[Stretch<L>],
    held: &Range<usize>,
    span: &Range<u64>,
) -> (Option<Stretch<L>>, Option<Stretch<L>>)
    requires order { held.now.start ≤ held.now.end }
    requires within { held.now.end ≤ length table.now }
    ensures before { result.0 ≡ first_left span.now.start (part held.now.start held.now.end table.now) }
    ensures behind { result.1 ≡ last_right L.Label.advanced span.now.end (part held.now.start held.now.end table.now) }
{
    match &table[held.start..held.end] {
        [] => (None, None),
        [only] => (left_of(only, span.start), right_of(only, span.end)),
        [first, .., last] => (left_of(first, span.start), right_of(last, span.end)),
    }
}

// Takes the addresses of the span out, and puts the piece, if there is one, between what is left on
// both sides.
fn replace<L: Label>(
    table: &mut [Stretch<L>],
    used: usize,
    span: &Range<u64>,
    middle: Option<Stretch<L>>,
) -> Result<usize, Refusal>
    requires ready { ready table.old used ≡ true }
    requires forward { span.now.start < span.now.end }
    ensures count { result ≡ counted (fitted table.old (replaced L.Label.advanced table.old used span.now.start span.now.end middle)) }
    ensures after { table.new ≡ written table.old (fitted table.old (replaced L.Label.advanced table.old used span.now.start span.now.end middle)) }
{
    let held = Ordered::of(table, used).overlap(span);
    let (left, right) = remainders(table, &held, span);
    splice(table, used, &held, left, middle, right)
}

// Takes the addresses out; the remainders on both sides stay.
pub fn cut<L: Label>(
    table: &mut [Stretch<L>],
    used: usize,
    start: u64,
    length: u64,
) -> Result<usize, Refusal>
    ensures count { result ≡ counted (cut_answer L.Label.advanced table.old used start length) }
    ensures after { table.new ≡ written table.old (cut_answer L.Label.advanced table.old used start length) }
    ensures stands { CutOut L.Label.advanced table.old used start length table.new result }
{
    check(table, used, start, length)?;
    cut_checked(table, used, start, length)
}

// A cut that `check` allows.
fn cut_checked<L: Label>(
    table: &mut [Stretch<L>],
    used: usize,
    start: u64,
    length: u64,
) -> Result<usize, Refusal>
    requires { checked table.old used start length ≡ Ok tt }
    ensures count { result ≡ counted (cut_goal L.Label.advanced table.old used start length) }
    ensures after { table.new ≡ written table.old (cut_goal L.Label.advanced table.old used start length) }
    ensures stands { CutOut L.Label.advanced table.old used start length table.new result }
{
    replace(table, used, &(start..start + length), None)
}

// Cuts the addresses of a stretch out, and puts it there.
pub fn paint<L: Label>(
    table: &mut [Stretch<L>],
    used: usize,
    new: Stretch<L>,
) -> Result<usize, Refusal>
    ensures count { result ≡ counted (paint_answer L.Label.advanced table.old used new) }
    ensures after { table.new ≡ written table.old (paint_answer L.Label.advanced table.old used new) }
    ensures stands { Laid L.Label.advanced table.old used new table.new result }
{
    check(table, used, new.start, new.length)?;
    paint_checked(table, used, new)
}

// A paint that `check` allows.
fn paint_checked<L: Label>(
    table: &mut [Stretch<L>],
    used: usize,
    new: Stretch<L>,
) -> Result<usize, Refusal>
    requires { checked table.old used new.start new.length ≡ Ok tt }
    ensures count { result ≡ counted (paint_goal L.Label.advanced table.old used new) }
    ensures after { table.new ≡ written table.old (paint_goal L.Label.advanced table.old used new) }
    ensures stands { Laid L.Label.advanced table.old used new table.new result }
{
    replace(table, used, &(new.start..new.start + new.length), Some(new))
}
