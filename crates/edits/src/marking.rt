// Sets of regions, made, asked and added to.
ghost use Rattle.std.specs.Prelude.{◌≡◌, ℕ, ◌<◌, true, false, not, ◌||◌, None, ◌==◌, slice_index_or};
ghost use Rattle.std.specs.List.{list_any};
ghost use Rattle.edits.specs.Marks.{IsSetOf, has, just, children};
ghost use Rattle.edits.specs.PathTests.{below, targets_of};

use crate::marks::Marks;
use tree::regions::{Attachment, Region};
use tree::table::REGIONS;

impl Marks {
    pub(crate) fn none() -> Marks
        ensures { IsSetOf (λ _. false) result }
    {
        Marks {
            marked: [false; REGIONS],
        }
    }

    pub(crate) fn all() -> Marks
        ensures { IsSetOf (λ _. true) result }
    {
        Marks {
            marked: [true; REGIONS],
        }
    }

    pub(crate) fn is_empty(&self) -> bool
        ensures { result ≡ not (list_any (has self.now) (below 64)) }
    {
        !self.marked.contains(&true)
    }

    pub(crate) fn has(&self, number: u8) -> bool
        ensures { result ≡ has self.now number }
    {
        self.marked.get(usize::from(number)) == Some(&true)
    }

    // A number from `REGIONS` on is no region's.
    fn add(&mut self, number: u8)
        ensures { (k : ℕ) → k < 64 → has self.new k ≡ ((number == k) || has self.old k) }
    {
        let place = usize::from(number);
        if place < self.marked.len() {
            self.marked[place] = true;
        }
    }

    // Adds a region, if there is one.
    pub(crate) fn add_some(&mut self, number: Option<u8>)
        ensures { (k : ℕ) → k < 64 → has self.new k ≡ (just number k || has self.old k) }
    {
        if let Some(number) = number {
            self.add(number);
        }
    }

    // Adds the parents of marked regions.
    pub(crate) fn add_parents(&mut self, attachments: &[Attachment], marked: &Marks)
        ensures { (k : ℕ) → k < 64 → has self.new k ≡ (has self.old k || list_any (has marked.now) (children k attachments.now)) }
    {
        for attachment in attachments {
            if marked.has(attachment.child) {
                self.add(attachment.parent);
            }
        }
    }

    // Adds the aliases of marked regions, whose places in the array are their numbers.
    pub(crate) fn add_aliases(&mut self, regions: &[Option<Region>; REGIONS], marked: &Marks)
        ensures { (k : ℕ) → has self.new k ≡ (has self.old k || list_any (has marked.now) (targets_of (slice_index_or regions.now k None))) }
    {
        for (number, region) in regions.iter().enumerate() {
            self.marked[number] |= shows_marked(region, marked);
        }
    }
}

// By reference: each round asks it of all the regions, and of copies it takes nearly twice the steps.
fn shows_marked(region: &Option<Region>, marked: &Marks) -> bool
    ensures { result ≡ list_any (has marked.now) (targets_of region.now) }
{
    let target = region.as_ref().and_then(Region::target);
    target.is_some_and(|target| marked.has(target))
}
