// Joining the stretches that run on.
ghost use Rattle.std.specs.Prelude.{◌≡◌, true, ◌++◌, length, take, drop};
ghost use Rattle.interval.specs.Stretches.{ready, at};
ghost use Rattle.interval.specs.Laws.{HoldsMaximal, Joined};
ghost use Rattle.interval.specs.Edits.{join as the_join};
ghost use Rattle.interval.specs.Calls.{counted, written, join_answer};

use crate::labels::{Label, SameLabel};
use crate::refusals::Refusal;
use crate::stretches::{Stretch, check_ready};

// Joins the live records, which are in order: in place, since the records move within one slice.
pub(crate) fn join_live<L: SameLabel>(table: &mut [Stretch<L>], used: usize) -> usize
    requires { ready table.old used ≡ true }
    ensures count { result ≡ length (the_join L.Label.advanced L.SameLabel.matches (take used table.old)) }
    ensures after { table.new ≡ the_join L.Label.advanced L.SameLabel.matches (take used table.old) ++ drop result table.old }
    ensures stands { HoldsMaximal L.Label.advanced L.SameLabel.matches (at L.Label.advanced (take used table.old)) table.old table.new result }
{
    if used == 0 {
        return 0;
    }
    let mut last = table[0];
    let mut done = 0;
    for k in 1..used {
        let next = table[k];
        if last.runs_onto(&next) {
            last.length += next.length;
        } else {
            table[done] = last;
            done += 1;
            last = next;
        }
    }
    table[done] = last;
    done + 1
}

// Makes one of touching stretches whose labels run on.
pub fn join<L: SameLabel>(table: &mut [Stretch<L>], used: usize) -> Result<usize, Refusal>
    ensures count { result ≡ counted (join_answer L.Label.advanced L.SameLabel.matches table.old used) }
    ensures after { table.new ≡ written table.old (join_answer L.Label.advanced L.SameLabel.matches table.old used) }
    ensures stands { Joined L.Label.advanced L.SameLabel.matches table.old used table.new result }
{
    check_ready(table, used)?;
    Ok(join_live(table, used))
}
