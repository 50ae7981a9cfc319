// Ranges of the flat map.
use crate::kinds::Kind;
use crate::places::Place;
use interval::stretches::Stretch;

// The addresses from `start` up to `start + length`, with the place of the first as the label:
// seven parts. The address `start + i` has the offset of the label plus `i`, and the other parts
// alike.
pub type Range = Stretch<Place>;

// A map has at most so many ranges.
pub const CAPACITY: usize = 256;

// What stands in the records of a table that do not count.
pub const UNUSED: Range = Stretch {
    start: 0,
    length: 0,
    label: Place {
        leaf: 0,
        device: 0,
        offset: 0,
        kind: Kind::Ram,
        writes: false,
    },
};
