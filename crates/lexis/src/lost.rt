// Why a line is not read on.

// The line begins no word of what is read.
#[derive(Clone, Copy, Debug, PartialEq, Eq)]
pub struct Lost {
    // The column of the first byte with which it begins none.
    pub column: usize,
}
