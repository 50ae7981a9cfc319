// Writing a change list and reading it back.
ghost use Rattle.std.specs.Prelude.{◌≤◌, length, take};
ghost use Rattle.changes.specs.Calls.{Read, Back, RoundTrip};

use crate::read::read_changes;
use crate::write::write_changes;
use model::changes::Change;

// Reads the first `end` bytes.
fn read_front(buffer: &[u8], end: usize, records: &mut [Change]) -> Option<usize>
    requires { end ≤ length buffer.now }
    ensures { Read (take end buffer.now) records.old records.new result }
{
    read_changes(&buffer[..end], records)
}

// Writes a change list into `buffer` and reads it back from there into `records`, where there is
// room for both.
pub fn read_back(changes: &[Change], buffer: &mut [u8], records: &mut [Change]) -> Option<usize>
    ensures result { Back changes.now buffer.old buffer.new records.old records.new result }
    ensures law { RoundTrip }
{
    if changes.len() > records.len() {
        return None;
    }
    let end = write_changes(changes, buffer)?;
    read_front(buffer, end, records)
}
