// Changed copies of a table.
ghost use Rattle.std.specs.Prelude.{◌≡◌, ◌<◌, true};
ghost use Rattle.tree.specs.Bounds.{bounded_region};
ghost use Rattle.tree.specs.Model.{model_of};
ghost use Rattle.tree.specs.Order.{inserted, without_child};
ghost use Rattle.edits.specs.Edited.{with_region, with_order};
ghost use Rattle.edits.specs.Limits.{Low};

use tree::regions::{Attachment, Region};
use tree::table::Table;

// Another region, or none, under a number.
pub(crate) fn with_region(mut table: Table, number: u8, region: Option<Region>) -> Table
    requires low { number < 64 }
    requires bounded { bounded_region region ≡ true }
    ensures { model_of result ≡ with_region (model_of table) number region }
{
    table.regions[usize::from(number)] = region;
    table
}

// One more attachment, or its child's moved, before all that have no higher priority.
pub(crate) fn with_child(mut table: Table, new: Attachment) -> Table
    requires { Low new }
    ensures { model_of result ≡ with_order (model_of table) (inserted new (without_child new.child (model_of table).attachments)) }
{
    // The order is not full without the child, since each region but the root is in it at most once.
    let _ = table.order.insert(new);
    table
}

// All attachments but that of one region.
pub(crate) fn without_child(mut table: Table, number: u8) -> Table
    ensures { model_of result ≡ with_order (model_of table) (without_child number (model_of table).attachments) }
{
    table.order.take_out(number);
    table
}
