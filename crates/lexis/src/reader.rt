// The reader of a line.
ghost use Rattle.std.specs.Prelude.{◌≡◌, ◌+◌, ◌^◌, ◌<◌, length};
ghost use Rattle.std.specs.Option.{ForSome};

use crate::lost::Lost;

mod items;

// What is left of a line, and the column of its first byte. Once lost, a reader stays where the line
// first failed.
#[derive(Drop)]
pub struct Reader<'a> {
    rest: &'a [u8],
    column: usize,
    lost: Option<Lost>,
    ghost room: { column + length rest.now < 2 ^ 64 },
    ghost stays: { ForSome lost (λ e. e.column ≡ column) },
}
