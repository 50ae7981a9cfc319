// The checks that edits make, each for one cause of refusal.
ghost use Rattle.std.specs.Prelude.{◌≡◌, not, ◌||◌, Some, ◌==◌};
ghost use Rattle.tree.specs.Model.{model_of};
ghost use Rattle.tree.specs.Order.{has_child, has_children};
ghost use Rattle.edits.specs.Rows.{bad_offset, bad_device, no_number, defined, is_container, shows, aliased};
ghost use Rattle.edits.specs.Checks.{checked, Found, Attached};

use crate::edit::Backing;
use interval::stretches::TOP;
use model::faults::Fault;
use tree::regions::{Attachment, Body, Region};
use tree::table::REGIONS;
use tree::tree::Tree;

// A region and its number.
#[derive(Clone, Copy)]
pub(crate) struct Known {
    pub(crate) number: u8,
    pub(crate) region: Region,
}

pub(crate) fn refuse_if(applies: bool, fault: Fault) -> Result<(), Fault>
    ensures { result ≡ checked applies fault tt }
{
    if applies { Err(fault) } else { Ok(()) }
}

pub(crate) fn check_offset(offset: u64) -> Result<(), Fault>
    ensures { result ≡ checked (bad_offset offset) Fault.BadOffset tt }
{
    refuse_if(offset > TOP, Fault::BadOffset)
}

// A number that a region may have.
pub(crate) fn check_number(number: u64) -> Result<u8, Fault>
    ensures { result ≡ checked (no_number number) (Fault.NoRegion number) number }
{
    match u8::try_from(number) {
        Ok(index) if usize::from(index) < REGIONS => Ok(index),
        _ => Err(Fault::NoRegion(number)),
    }
}

// A number that no region has yet.
pub(crate) fn check_free(tree: &Tree, number: u8) -> Result<(), Fault>
    ensures { result ≡ checked (defined (model_of tree.now.table) number) Fault.Defined tt }
{
    refuse_if(tree.region(u64::from(number)).is_some(), Fault::Defined)
}

// The region of a number.
pub(crate) fn check_region(tree: &Tree, number: u64) -> Result<Known, Fault>
    ensures { Found (model_of tree.now.table) number result }
{
    let index = check_number(number)?;
    let region = tree.region(number).ok_or(Fault::NoRegion(number))?;
    Ok(Known {
        number: index,
        region,
    })
}

// The root is no child of another region, and stays as it is.
pub(crate) fn check_no_root(number: u64) -> Result<(), Fault>
    ensures { result ≡ checked (number == 0) Fault.Root tt }
{
    refuse_if(number == 0, Fault::Root)
}

pub(crate) fn check_container(region: Region) -> Result<(), Fault>
    ensures { result ≡ checked (not (is_container (Some region))) Fault.NoContainer tt }
{
    refuse_if(!matches!(region.body, Body::Container), Fault::NoContainer)
}

// The number of a device that has as many bytes as a leaf.
pub(crate) fn check_device(backing: Backing, device: u64, size: u64) -> Result<u16, Fault>
    ensures { result ≡ checked (bad_device backing device size) (Fault.BadDevice device) device }
{
    match u16::try_from(device) {
        Ok(device) if size <= backing.length => Ok(device),
        _ => Err(Fault::BadDevice(device)),
    }
}

// The attachment of a region.
#[tactic(auto, using(tree::proofs::Orders::attached_some))]
pub(crate) fn check_attached(tree: &Tree, number: u8) -> Result<Attachment, Fault>
    ensures { Attached (model_of tree.now.table).attachments number result }
{
    tree.table
        .order
        .attachment_of(number)
        .ok_or(Fault::Unattached)
}

#[tactic(auto, using(tree::proofs::Orders::attached_some))]
pub(crate) fn check_unattached(tree: &Tree, number: u8) -> Result<(), Fault>
    ensures { result ≡ checked (has_child number (model_of tree.now.table).attachments) Fault.InUse tt }
{
    let attachment = tree.table.order.attachment_of(number);
    refuse_if(attachment.is_some(), Fault::InUse)
}

// A region that is not attached, has no children and is no alias's target.
pub(crate) fn check_unused(tree: &Tree, number: u8) -> Result<(), Fault>
    ensures { result ≡ checked (has_child number (model_of tree.now.table).attachments || (has_children (model_of tree.now.table).attachments number || aliased (model_of tree.now.table).regions number)) Fault.InUse tt }
{
    check_unattached(tree, number)?;
    let is_used = tree.table.order.has_children(number) || is_target(&tree.table.regions, number);
    refuse_if(is_used, Fault::InUse)
}

// Whether an alias shows a region.
fn is_target(regions: &[Option<Region>], number: u8) -> bool
    ensures { result ≡ aliased regions.now number }
{
    regions.iter().any(|region| shows(*region, number))
}

fn shows(region: Option<Region>, number: u8) -> bool
    ensures { result ≡ shows number region }
{
    region.is_some_and(|region| region.target() == Some(number))
}
