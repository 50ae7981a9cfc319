// Sets of regions.
ghost use Rattle.std.specs.Prelude.{◌≡◌, length};

use tree::table::REGIONS;

// A set of regions: a mark for each number that a region may have, since so few marks need no heap.
#[derive(Clone, Copy)]
pub(crate) struct Marks {
    pub(crate) marked: [bool; REGIONS],
    ghost whole: { length marked ≡ 64 },
}
