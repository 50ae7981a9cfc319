// Stretches of addresses, and the order that a table of them keeps.
ghost use Rattle.std.specs.Prelude.{◌≡◌, ◌+◌, nat_le, Decides};
ghost use Rattle.interval.specs.Stretches.{stop, lawful, rising, holds, ready, same_stretch};
ghost use Rattle.interval.specs.Edits.{apart, runs_on};
ghost use Rattle.interval.specs.Calls.{readied};

use crate::labels::{Label, SameLabel};
use crate::refusals::Refusal;

// No stretch ends above this address.
pub const TOP: u64 = 1 << 40;

// The addresses from `start` up to `start + length`, the first of them with the label `label`.
#[derive(Clone, Copy, Debug, PartialEq, Eq)]
pub struct Stretch<L> {
    pub start: u64,
    pub length: u64,
    pub label: L,
}

impl<L> Stretch<L> {
    // Whether the stretch holds the address.
    pub fn covers(&self, address: u64) -> bool
        ensures { result ≡ holds self.now address }
    {
        self.start <= address && address - self.start < self.length
    }

    // Whether it ends at the address or before it.
    pub fn ends_by(&self, address: u64) -> bool
        ensures { result ≡ nat_le (stop self.now) address }
    {
        self.start <= address && self.length <= address - self.start
    }

    // Whether it holds an address, and none past the top.
    pub fn is_lawful(&self) -> bool
        ensures { result ≡ lawful self.now.start self.now.length }
    {
        self.length > 0 && self.ends_by(TOP)
    }

    // Whether the two hold no address in common.
    pub fn is_apart(&self, other: &Stretch<L>) -> bool
        ensures { result ≡ apart self.now.start (stop self.now) other.now }
    {
        other.ends_by(self.start) || self.ends_by(other.start)
    }
}

impl<L: SameLabel> Stretch<L> {
    // Whether the two are equal in all parts, the labels by their own sameness.
    pub fn is_same(&self, other: &Stretch<L>) -> bool
        ensures value { result ≡ same_stretch L.SameLabel.matches self.now other.now }
        ensures exact { Decides result (self.now ≡ other.now) }
    {
        self.start == other.start && self.length == other.length && self.label.same(&other.label)
    }

    // Whether `next` begins where this one ends, with the label that this one has come to.
    pub fn runs_onto(&self, next: &Stretch<L>) -> bool
        ensures { result ≡ runs_on L.Label.advanced L.SameLabel.matches self.now next.now }
    {
        next.start >= self.start
            && next.start - self.start == self.length
            && self.label.advance(self.length).same(&next.label)
    }
}

// Whether the stretches rise without overlap, each lawful.
fn in_order<L>(live: &[Stretch<L>]) -> bool
    ensures { result ≡ rising 0 live.now }
{
    let mut low = 0;
    for s in live {
        if s.start < low || !s.is_lawful() {
            return false;
        }
        low = s.start + s.length;
    }
    true
}

// Whether the table has `used` records, and these are in order.
pub fn is_ready<L>(table: &[Stretch<L>], used: usize) -> bool
    ensures { result ≡ ready table.now used }
{
    used <= table.len() && in_order(&table[0..used])
}

// The refusal of a table that is not ready.
pub(crate) fn check_ready<L>(table: &[Stretch<L>], used: usize) -> Result<(), Refusal>
    ensures { result ≡ readied table.now used }
{
    if !is_ready(table, used) {
        return Err(Refusal::Disorder);
    }
    Ok(())
}
