// The tree that a space begins with.
ghost use Rattle.std.specs.Prelude.{◌≡◌};
ghost use Rattle.tree.specs.Roots.{begun, told};

use crate::order::SearchOrder;
use crate::regions::{Body, Region};
use crate::sizes::check_size;
use crate::table::{REGIONS, Table};
use crate::tree::Tree;
use model::faults::Fault;

impl Tree {
    // The root alone, switched on and not protected.
    pub fn new(root_size: u64) -> Result<Tree, Fault>
        ensures { told result ≡ begun root_size }
    {
        check_size(root_size)?;
        let mut regions = [None; REGIONS];
        regions[0] = Some(Region::new(Body::Container, root_size));
        Ok(Tree {
            table: Table {
                regions,
                order: SearchOrder::new(),
            },
        })
    }
}
