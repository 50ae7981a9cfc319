// Which changes have a line.
ghost use Rattle.std.specs.Prelude.{Decides};
ghost use Rattle.changes.specs.Lines.{Writable};

use interval::stretches::TOP;
use model::changes::Change;
use model::kinds::Kind;

// The highest number of a leaf.
pub(crate) const LAST_LEAF: u8 = 0x3f;

// Whether a change line may say this.
pub fn is_writable(change: &Change) -> bool
    ensures { Decides result (Writable change.now) }
{
    let range = change.range();
    let place = range.label;
    range.length > 0
        && range.start <= TOP
        && range.length <= TOP - range.start
        && place.offset <= TOP
        && range.length <= TOP - place.offset
        && place.leaf > 0
        && place.leaf <= LAST_LEAF
        && (place.kind != Kind::Rom || !place.writes)
}
