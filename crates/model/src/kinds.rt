// What the bytes of a device are: memory, fixed content, or registers.
#[derive(Clone, Copy, Debug, PartialEq, Eq)]
pub enum Kind {
    Ram,
    Rom,
    Reg,
}
