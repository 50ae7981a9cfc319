// The edits of a tree: each takes the fields of its variant of `Edit`, which keeps them together, and
// gives the changed table, or the first refusal that applies.
#![tactic(auto, unfolding(crate::specs::Edited::edited))]

ghost use Rattle.tree.specs.Model.{model_of};
ghost use Rattle.edits.specs.Checks.{Changed, Child, New, NewAlias, NewAttachment};
ghost use Rattle.edits.specs.declared.edit.Backing.{Backing as Device};

use crate::checks::{
    Known, check_attached, check_container, check_device, check_free, check_no_root, check_number,
    check_offset, check_region, check_unattached, check_unused,
};
use crate::edit::{Backing, Edit};
use crate::paths::check_paths;
use crate::tables::{with_child, with_region, without_child};
use model::faults::Fault;
use tree::regions::{Attachment, Body, Region};
use tree::sizes::check_size;
use tree::table::Table;
use tree::tree::Tree;

// The number of a region that is to be made.
fn check_new(tree: &Tree, number: u64, size: u64) -> Result<u8, Fault>
    ensures { New (model_of tree.now.table) number size result }
{
    check_size(size)?;
    let index = check_number(number)?;
    check_free(tree, index)?;
    Ok(index)
}

// A region that is not the root.
fn check_child(tree: &Tree, number: u64) -> Result<Known, Fault>
    ensures { Child (model_of tree.now.table) number result }
{
    let known = check_region(tree, number)?;
    check_no_root(number)?;
    Ok(known)
}

pub(crate) fn make_container(tree: &Tree, number: u64, size: u64) -> Result<Table, Fault>
    ensures { (b : Device) → Changed b (model_of tree.now.table) (Edit.Container number size) result }
{
    let index = check_new(tree, number, size)?;
    Ok(with_region(tree.table, index, Some(Region::new(Body::Container, size))))
}

pub(crate) fn make_leaf(
    tree: &Tree,
    number: u64,
    size: u64,
    device: u64,
    backing: Backing,
) -> Result<Table, Fault>
    ensures { Changed backing (model_of tree.now.table) (Edit.Leaf number size device) result }
{
    let index = check_new(tree, number, size)?;
    let device = check_device(backing, device, size)?;
    let body = Body::Leaf {
        device,
        kind: backing.kind,
    };
    Ok(with_region(tree.table, index, Some(Region::new(body, size))))
}

// The alias that is to be made. Its target is checked before whether its number is free, so this
// does not begin with `check_new`.
fn check_alias(tree: &Tree, number: u64, size: u64, target: u64, from: u64) -> Result<Known, Fault>
    ensures { NewAlias (model_of tree.now.table) number size target from result }
{
    check_size(size)?;
    check_offset(from)?;
    let index = check_number(number)?;
    let shown = check_region(tree, target)?;
    check_free(tree, index)?;
    let body = Body::Alias {
        target: shown.number,
        from,
    };
    Ok(Known {
        number: index,
        region: Region::new(body, size),
    })
}

// A new alias, unless a path would be too long through it.
pub(crate) fn make_alias(
    tree: &Tree,
    number: u64,
    size: u64,
    target: u64,
    from: u64,
) -> Result<Table, Fault>
    ensures { (b : Device) → Changed b (model_of tree.now.table) (Edit.Alias number size target from) result }
{
    let alias = check_alias(tree, number, size, target, from)?;
    let table = with_region(tree.table, alias.number, Some(alias.region));
    check_paths(&table, alias.number)?;
    Ok(table)
}

// The attachment that is to be made.
fn check_attachment(
    tree: &Tree,
    number: u64,
    parent: u64,
    offset: u64,
    priority: i16,
) -> Result<Attachment, Fault>
    ensures { NewAttachment (model_of tree.now.table) (record { child = number; parent = parent; offset = offset; priority = priority }) result }
{
    check_offset(offset)?;
    let child = check_region(tree, number)?;
    let holder = check_region(tree, parent)?;
    check_no_root(number)?;
    check_container(holder.region)?;
    check_unattached(tree, child.number)?;
    Ok(Attachment {
        child: child.number,
        parent: holder.number,
        offset,
        priority,
    })
}

// One more attachment, unless a path would come back or be too long through it.
pub(crate) fn attach(
    tree: &Tree,
    number: u64,
    parent: u64,
    offset: u64,
    priority: i16,
) -> Result<Table, Fault>
    ensures { (b : Device) → Changed b (model_of tree.now.table) (Edit.Attach number parent offset priority) result }
{
    let new = check_attachment(tree, number, parent, offset, priority)?;
    let table = with_child(tree.table, new);
    check_paths(&table, new.parent)?;
    Ok(table)
}

pub(crate) fn detach(tree: &Tree, number: u64) -> Result<Table, Fault>
    ensures { (b : Device) → Changed b (model_of tree.now.table) (Edit.Detach number) result }
{
    let child = check_child(tree, number)?;
    check_attached(tree, child.number)?;
    Ok(without_child(tree.table, child.number))
}

pub(crate) fn move_region(tree: &Tree, number: u64, offset: u64) -> Result<Table, Fault>
    ensures { (b : Device) → Changed b (model_of tree.now.table) (Edit.Move number offset) result }
{
    check_offset(offset)?;
    let child = check_child(tree, number)?;
    let mut attachment = check_attached(tree, child.number)?;
    attachment.offset = offset;
    Ok(with_child(tree.table, attachment))
}

pub(crate) fn switch(tree: &Tree, number: u64, on: bool) -> Result<Table, Fault>
    ensures { (b : Device) → Changed b (model_of tree.now.table) (Edit.Switch number on) result }
{
    let child = check_child(tree, number)?;
    let region = Region { on, ..child.region };
    Ok(with_region(tree.table, child.number, Some(region)))
}

pub(crate) fn protect(tree: &Tree, number: u64, protected: bool) -> Result<Table, Fault>
    ensures { (b : Device) → Changed b (model_of tree.now.table) (Edit.Protect number protected) result }
{
    let child = check_child(tree, number)?;
    let region = Region {
        protected,
        ..child.region
    };
    Ok(with_region(tree.table, child.number, Some(region)))
}

pub(crate) fn remove(tree: &Tree, number: u64) -> Result<Table, Fault>
    ensures { (b : Device) → Changed b (model_of tree.now.table) (Edit.Remove number) result }
{
    let child = check_child(tree, number)?;
    check_unused(tree, child.number)?;
    Ok(with_region(tree.table, child.number, None))
}
