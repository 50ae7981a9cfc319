// Why a call answers no. Where several causes apply, the one that stands first here is the answer.
#[derive(Clone, Copy, Debug, PartialEq, Eq)]
pub enum Refusal {
    // a length of 0
    Empty,
    // an end above 2^40
    High,
    // more live records than the table has, or live records out of order
    Disorder,
    // a put on an address that is not free
    Taken,
    // the result does not fit the table
    Short,
}
