// The plain data of a tree.
ghost use Rattle.std.specs.Prelude.{◌≡◌, true, length};
ghost use Rattle.tree.specs.Bounds.{bounded_regions, bounded_attachments};
ghost use Rattle.tree.specs.Listed.{listed};

use crate::order::SearchOrder;
use crate::regions::Region;

// A region's number is below this.
pub const REGIONS: usize = 64;

// The regions by their numbers, and how they are attached. A caller chooses the numbers, so the regions
// lie in an array, with none under a number that is free.
#[derive(Clone, Copy)]
pub struct Table {
    pub regions: [Option<Region>; REGIONS],
    pub order: SearchOrder,
    ghost numbered: { length regions ≡ 64 },
    ghost sizes: { bounded_regions regions ≡ true },
    ghost offsets: { bounded_attachments (listed order) ≡ true },
}
