// Why a change list cannot be carried out.
#[derive(Clone, Copy, Debug, PartialEq, Eq)]
pub enum Failure {
    // the live records of the table are out of order, or more than it has
    Disorder,
    // this entry, counted from 0, removes a range that is not held, or adds what is no range or
    // overlaps a held one
    Entry(usize),
    // this entry finds the table full
    Full(usize),
}
