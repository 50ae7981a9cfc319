// Refusals: every call answers one of these faults where it refuses, and a fault passes up through
// all layers as it is.
ghost use Rattle.std.specs.Prelude.{◌≡◌, ◌≤◌};
ghost use Rattle.model.specs.Faults.{row, layer_by_number, OnlyFault};

// The layer that a refusal belongs to.
#[derive(Clone, Copy, Debug, PartialEq, Eq)]
pub enum Layer {
    Tree,
    Map,
    Access,
    Script,
}

// The causes of refusal, in the order in which they decide. Some hold the place of the fault: a
// region number, a device number, a length, an address or a column.
#[derive(Clone, Copy, Debug, PartialEq, Eq)]
pub enum Fault {
    // a begin, or the script's end, while a draft stands
    DraftStands,
    // an edit, a commit or a drop while no draft stands
    NoDraft,
    // a size of 0 or above 2^40
    BadSize,
    // an offset above 2^40
    BadOffset,
    // a region number above 63, or of no region where there must be one
    NoRegion(u64),
    // a region made under a number that has one
    Defined,
    // an edit of the root that the root does not take
    Root,
    // a parent that is no container
    NoContainer,
    // a device number above 65,535, or a leaf longer than its device's bytes
    BadDevice(u64),
    // attaching what is attached; removing what is attached, has children or is an alias's target
    InUse,
    // detaching or moving what is not attached
    Unattached,
    // a path of the tree would come back to its start
    Cycle,
    // a path of the tree would have over 8 edges
    TooDeep,
    // the new map would have over 256 ranges
    MapFull,
    // the new map would have more ranges of the listener's kinds than the listener holds
    ListenerFull,
    // the change list is longer than the caller's list
    ListShort,
    // an opening over a listener that holds a range
    ListenerInUse,
    // no address or over 4,096 of them in one access, or a script over 65,536 bytes
    BadLength(u64),
    // an address that leads nowhere
    NoPlace(u64),
    // a write to an address whose place takes none
    NoWrites(u64),
    // a line that is no form that is legal at that point
    NoForm(u64),
}

impl Fault {
    // The number of the cause, from 1 to 21, by which the printed form names it. With the place it
    // tells the fault.
    pub fn number(self) -> u8
        ensures row { result ≡ (row self).number }
        ensures only { OnlyFault self }
    {
        match self {
            Fault::DraftStands => 1,
            Fault::NoDraft => 2,
            Fault::BadSize => 3,
            Fault::BadOffset => 4,
            Fault::NoRegion(_) => 5,
            Fault::Defined => 6,
            Fault::Root => 7,
            Fault::NoContainer => 8,
            Fault::BadDevice(_) => 9,
            Fault::InUse => 10,
            Fault::Unattached => 11,
            Fault::Cycle => 12,
            Fault::TooDeep => 13,
            Fault::MapFull => 14,
            Fault::ListenerFull => 15,
            Fault::ListShort => 16,
            Fault::ListenerInUse => 17,
            Fault::BadLength(_) => 18,
            Fault::NoPlace(_) => 19,
            Fault::NoWrites(_) => 20,
            Fault::NoForm(_) => 21,
        }
    }

    // The tree has the numbers up to 13, the map those up to 17, accesses those up to 20, and the
    // script the last.
    pub fn layer(self) -> Layer
        ensures row { result ≡ (row self).layer }
        ensures number { result ≡ layer_by_number (row self).number }
    {
        match self {
            Fault::DraftStands
            | Fault::NoDraft
            | Fault::BadSize
            | Fault::BadOffset
            | Fault::NoRegion(_)
            | Fault::Defined
            | Fault::Root
            | Fault::NoContainer
            | Fault::BadDevice(_)
            | Fault::InUse
            | Fault::Unattached
            | Fault::Cycle
            | Fault::TooDeep => Layer::Tree,
            Fault::MapFull | Fault::ListenerFull | Fault::ListShort | Fault::ListenerInUse => {
                Layer::Map
            }
            Fault::BadLength(_) | Fault::NoPlace(_) | Fault::NoWrites(_) => Layer::Access,
            Fault::NoForm(_) => Layer::Script,
        }
    }

    // The place that the fault holds. The printed form has a number there for every fault, so that is
    // 0 where the fault holds none.
    pub fn place(self) -> u64
        ensures { result ≡ (row self).place }
    {
        match self {
            Fault::NoRegion(place)
            | Fault::BadDevice(place)
            | Fault::BadLength(place)
            | Fault::NoPlace(place)
            | Fault::NoWrites(place)
            | Fault::NoForm(place) => place,
            _ => 0,
        }
    }
}
