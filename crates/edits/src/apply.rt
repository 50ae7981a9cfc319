// Editing a tree.
ghost use Rattle.std.specs.Prelude.{◌≡◌};
ghost use Rattle.tree.specs.Model.{model_of};
ghost use Rattle.edits.specs.Checks.{Changed};
ghost use Rattle.edits.specs.Promises.{PathsTold, OrderAfter};
ghost use Rattle.model.specs.Rows.{told};
ghost use Rattle.edits.specs.Rows.{edit_refusal, edit_result};

use crate::changes::{
    attach, detach, make_alias, make_container, make_leaf, move_region, protect, remove, switch,
};
use crate::edit::{Backing, Edit};
use model::faults::Fault;
use tree::table::Table;
use tree::tree::Tree;

// The table after an edit, or the first refusal that applies.
fn changed(tree: &Tree, edit: Edit, backing: Backing) -> Result<Table, Fault>
    ensures { Changed backing (model_of tree.now.table) edit result }
{
    match edit {
        Edit::Container { number, size } => make_container(tree, number, size),
        Edit::Leaf {
            number,
            size,
            device,
        } => make_leaf(tree, number, size, device, backing),
        Edit::Alias {
            number,
            size,
            target,
            from,
        } => make_alias(tree, number, size, target, from),
        Edit::Attach {
            number,
            parent,
            offset,
            priority,
        } => attach(tree, number, parent, offset, priority),
        Edit::Detach { number } => detach(tree, number),
        Edit::Move { number, offset } => move_region(tree, number, offset),
        Edit::Switch { number, on } => switch(tree, number, on),
        Edit::Protect { number, on } => protect(tree, number, on),
        Edit::Remove { number } => remove(tree, number),
    }
}

// Edits a tree. A refused edit leaves it as it was. `backing` is the device that a leaf names, and
// other edits do not ask for it.
pub fn edit(tree: &mut Tree, edit: Edit, backing: Backing) -> Result<(), Fault>
    ensures answer { result ≡ told (edit_refusal backing (model_of tree.old.table) edit) }
    ensures after { model_of tree.new.table ≡ edit_result backing (model_of tree.old.table) edit }
    ensures paths { PathsTold backing (model_of tree.old.table) edit result }
    ensures order { OrderAfter edit result (model_of tree.old.table).attachments (model_of tree.new.table).attachments }
{
    let table = changed(tree, edit, backing)?;
    *tree = Tree { table };
    Ok(())
}
