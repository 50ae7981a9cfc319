// Questions about a tree.
ghost use Rattle.std.specs.Prelude.{◌≡◌, ◌^◌, ◌≤◌, true};
ghost use Rattle.tree.specs.Model.{model_of, region_at};
ghost use Rattle.tree.specs.Bounds.{bounded_region};
ghost use Rattle.tree.specs.Search.{root_size};

use crate::regions::Region;
use crate::tree::Tree;

impl Tree {
    // The region of a number, if there is one.
    pub fn region(&self, number: u64) -> Option<Region>
        ensures is { result ≡ region_at (model_of self.now.table) number }
        ensures bounded { bounded_region result ≡ true }
    {
        // A number that is no place of the array is no region's.
        let index = usize::try_from(number).ok()?;
        self.table.regions.get(index).copied().flatten()
    }

    // The guest addresses are those below the size of the root.
    pub fn root_size(&self) -> u64
        ensures is { result ≡ root_size (model_of self.now.table) }
        ensures bounded { result ≤ 2 ^ 40 }
    {
        self.region(0).map_or(0, |root| root.size)
    }
}
