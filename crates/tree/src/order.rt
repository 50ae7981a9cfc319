// The search order of a tree.
ghost use Rattle.std.specs.Prelude.{◌≡◌, ◌==◌, position, ◌<◌, ◌≤◌, ◌↔◌, true, [], length, take, int_lt, IsOk, OnOk, OnErr};
ghost use Rattle.std.specs.List.{prefix_len};
ghost use Rattle.tree.specs.Order.{attachment_of, has_children, inserted, once, sorted, without_child};

use crate::regions::Attachment;
use crate::table::REGIONS;

// All regions but the root may be attached.
const ROWS: usize = REGIONS - 1;

// What stands in the entries that do not count.
const UNUSED: Attachment = Attachment {
    child: 0,
    parent: 0,
    offset: 0,
    priority: 0,
};

// The attachments of all parents, each child's at most once: higher priority first, among equals the
// later attached or moved first. They lie in an array, since nothing here takes memory from the heap:
// of `entries` only the first `count` count.
#[derive(Clone, Copy)]
pub struct SearchOrder {
    entries: [Attachment; ROWS],
    count: usize,
    ghost rows: { length entries ≡ 63 },
    ghost fits: { count ≤ 63 },
    ghost single: { once (take count entries) ≡ true },
    ghost ranked: { sorted (take count entries) ≡ true },
}

// There are 63 other attachments already.
#[derive(Clone, Copy, Debug, PartialEq, Eq)]
pub struct Full;

impl SearchOrder {
    ghost use Rattle.tree.specs.Listed.{listed};

    pub fn new() -> SearchOrder
        ensures { listed result ≡ [] }
    {
        SearchOrder {
            entries: [UNUSED; ROWS],
            count: 0,
        }
    }

    // The attachments, in their order.
    pub fn attachments(&self) -> &[Attachment]
        ensures { result.now ≡ listed self.now }
    {
        &self.entries[..self.count]
    }

    // The attachment of a region, if it has one.
    pub fn attachment_of(&self, child: u8) -> Option<Attachment>
        ensures { result ≡ attachment_of child (listed self.now) }
    {
        self.attachments()
            .iter()
            .copied()
            .find(|attachment| attachment.child == child)
    }

    // Whether something is attached to a region.
    pub fn has_children(&self, parent: u8) -> bool
        ensures { result ≡ has_children (listed self.now) parent }
    {
        self.attachments()
            .iter()
            .any(|attachment| attachment.parent == parent)
    }

    // Puts an attachment before all that have no higher priority, in place of its child's old one.
    pub fn insert(&mut self, new: Attachment) -> Result<(), Full>
        ensures room { IsOk result ↔ length (without_child new.child (listed self.old)) < 63 }
        ensures ok { OnOk result (listed self.new ≡ inserted new (without_child new.child (listed self.old))) }
        ensures full { OnErr result (listed self.new ≡ listed self.old) }
    {
        self.take_out(new.child);
        let count = self.count;
        if count == ROWS {
            return Err(Full);
        }
        let at = self.rank(&new);
        self.entries.copy_within(at..count, at + 1);
        self.entries[at] = new;
        self.count = count + 1;
        Ok(())
    }

    // Takes out the attachment of a region, if it has one.
    pub fn take_out(&mut self, child: u8)
        ensures { listed self.new ≡ without_child child (listed self.old) }
    {
        if let Some(at) = self.place_of(child) {
            self.entries.copy_within(at + 1..self.count, at);
            self.count -= 1;
        }
    }

    // Where the attachment of a region stands.
    fn place_of(&self, child: u8) -> Option<usize>
        ensures { result ≡ position (λ c. c.child == child) (listed self.now) }
    {
        self.attachments()
            .iter()
            .position(|attachment| attachment.child == child)
    }

    // How many have a higher priority than a new attachment.
    fn rank(&self, new: &Attachment) -> usize
        ensures is { result ≡ prefix_len (λ c. int_lt new.now.priority c.priority) (listed self.now) }
        ensures within { result ≤ self.now.count }
    {
        self.attachments()
            .iter()
            .take_while(|attachment| attachment.priority > new.priority)
            .count()
    }
}
