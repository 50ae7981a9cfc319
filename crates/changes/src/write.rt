// Writing change lists.
ghost use Rattle.std.specs.Prelude.{◌≡◌, length, Decides};
ghost use Rattle.lexis.specs.Shown.{shown};
ghost use Rattle.changes.specs.Lines.{line as written_line};
ghost use Rattle.changes.specs.Calls.{Fits, Written};

use crate::words::Word;
use crate::writable::is_writable;
use lexis::keyword::Keyword;
use lexis::line::Line;
use model::changes::Change;

// The line of a change, with its line feed. Not one `write!`, since no clause says that it answers Ok,
// and only then does it promise its text.
pub fn line_of(change: &Change) -> Line
    ensures { shown result ≡ written_line change.now }
{
    let range = change.range();
    let place = range.label;
    let action = Word(change.action());
    let kind = Word(place.kind);
    let writes = Word(place.writes);
    let mut line = Line::new();
    line.put(b"(");
    line.put(action.word());
    line.put(b" (at ");
    line.hex(range.start);
    line.put(b") (length ");
    line.hex(range.length);
    line.put(b") (leaf ");
    line.hex(u64::from(place.leaf));
    line.put(b" (device ");
    line.hex(u64::from(place.device));
    line.put(b") (offset ");
    line.hex(place.offset);
    line.put(b")) (kind ");
    line.put(kind.word());
    line.put(b") (writes ");
    line.put(writes.word());
    line.put(b"))\n");
    line
}

// Whether each change may be written, and the text has room.
fn fits(changes: &[Change], room: usize) -> bool
    ensures { Decides result (Fits changes.now room) }
{
    let mut n = 0;
    for change in changes {
        if !is_writable(change) {
            return false;
        }
        let len = line_of(change).len();
        if len > room - n {
            return false;
        }
        n += len;
    }
    true
}

// Writes the lines of the changes, one after another.
fn write_lines(changes: &[Change], buffer: &mut [u8]) -> Option<usize>
    requires { Fits changes.now (length buffer.old) }
    ensures { Written changes.now buffer.old buffer.new result }
{
    let mut at = 0;
    for change in changes {
        at = line_of(change).copy_to(buffer, at)?;
    }
    Some(at)
}

// Writes a change list at the front of `buffer`, and answers how many bytes it takes.
pub fn write_changes(changes: &[Change], buffer: &mut [u8]) -> Option<usize>
    ensures { Written changes.now buffer.old buffer.new result }
{
    if !fits(changes, buffer.len()) {
        return None;
    }
    write_lines(changes, buffer)
}
