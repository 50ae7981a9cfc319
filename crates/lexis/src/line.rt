// The line being written.
ghost use Rattle.std.specs.Prelude.{◌≤◌};
ghost use Rattle.arrayvec.specs.ArrayVec.{array_vec_len};

mod puts;

use arrayvec::ArrayVec;

// How many bytes a line holds.
pub const CAPACITY: usize = 256;

// A line that keeps the first CAPACITY bytes put into it.
#[derive(Drop)]
pub struct Line {
    text: ArrayVec<u8, CAPACITY>,
    ghost within: { array_vec_len text ≤ 256 },
}
