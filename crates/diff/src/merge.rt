// One walk along two maps that rise by start.
ghost use Rattle.std.specs.Prelude.{◌≡◌, ◌++◌, ◌≤◌, map, length, drop};
ghost use Rattle.std.specs.Iterator.{YieldsFirst, item_count};
ghost use Rattle.interval.specs.Edits.{started};
ghost use Rattle.model.specs.Changes.{entry as entry_of};
ghost use Rattle.diff.specs.ChangeLists.{ranges, missing};
ghost use Rattle.diff.specs.Merge.{begins, left_over};

use interval::ordered::Ordered;
use model::changes::{Action, Change};
use model::places::Place;
use model::ranges::Range;

// The ranges of one map that another lacks, rising. `left` has what is still to come; of `others` all
// that starts below the range looked at last is gone.
#[derive(Drop)]
pub(crate) struct Missing<'a> {
    left: Ordered<'a, Place>,
    others: Ordered<'a, Place>,
}

impl<'a> Missing<'a> {
    pub(crate) fn between(xs: &Ordered<'a, Place>, ys: &Ordered<'a, Place>) -> Missing<'a>
        ensures gives { left_over result ≡ missing (ranges xs.now) (ranges ys.now) }
        ensures fits { length (left_over result) ≤ usize.MAX }
    {
        Missing {
            left: Ordered { live: xs.live },
            others: Ordered { live: ys.live },
        }
    }
}

// The ranges from the first on that does not start below the address.
fn from_start(ranges: &[Range], address: u64) -> &[Range]
    ensures { result.now ≡ drop (started address ranges.now) ranges.now }
{
    let below = ranges
        .iter()
        .take_while(|range| range.start < address)
        .count();
    &ranges[below..]
}

// Whether the first of the ranges is this one.
fn starts_with(ranges: &[Range], range: &Range) -> bool
    ensures { result ≡ begins ranges.now range.now }
{
    ranges.first() == Some(range)
}

impl<'a> Iterator for Missing<'a> {
    type Item = Range;

    ghost next_gives = { YieldsFirst left_over };

    ghost remaining = { item_count left_over };

    fn next(&mut self) -> Option<Range> {
        while let Some((range, after)) = self.left.live.split_first() {
            self.left = Ordered { live: after };
            self.others = Ordered {
                live: from_start(self.others.live, range.start),
            };
            if !starts_with(self.others.live, range) {
                return Some(*range);
            }
        }
        None
    }
}

// Writes an entry for each range of `xs` that is not among `ys` into the list, which has room for
// them.
pub(crate) fn write_missing(
    action: Action,
    xs: &Ordered<Place>,
    ys: &Ordered<Place>,
    list: &mut [Change],
)
    requires { length (missing (ranges xs.now) (ranges ys.now)) ≤ length list.old }
    ensures { list.new ≡ map (entry_of action) (missing (ranges xs.now) (ranges ys.now)) ++ drop (length (missing (ranges xs.now) (ranges ys.now))) list.old }
{
    let mut missing = Missing::between(xs, ys);
    for record in list.iter_mut() {
        let Some(range) = missing.next() else { break };
        *record = action.entry(range);
    }
}
