// Where an address leads.
use crate::kinds::Kind;

// A byte of a device, as the leaf `leaf` shows it: the byte `offset` of the device `device`, whose
// bytes are of the kind `kind`, and whether a write is let through: a yes or no in the printed form
// too.
#[derive(Clone, Copy, Debug, PartialEq, Eq)]
pub struct Place {
    pub leaf: u8,
    pub device: u16,
    pub offset: u64,
    pub kind: Kind,
    pub writes: bool,
}
