// The label of the examples.
ghost use Rattle.std.specs.Prelude.{◌^◌, ◌<◌};

// An offset that advances by one with each address, modulo 2^64.
#[derive(Clone, Copy, PartialEq, Eq)]
pub struct Offset {
    pub value: u64,
    ghost fits: { value < 2 ^ 64 },
}
