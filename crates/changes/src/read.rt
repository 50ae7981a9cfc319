// Reading change lists.
ghost use Rattle.std.specs.Prelude.{◌≤◌, length, IfOk};
ghost use Rattle.std.specs.Option.{MatchOption};
ghost use Rattle.std.specs.Iterator.{at_most};
ghost use Rattle.lexis.specs.Lang.{Got, After, Chosen};
ghost use Rattle.lexis.specs.Moving.{Moves};
ghost use Rattle.lexis.specs.Numeral.{Number};
ghost use Rattle.changes.specs.Shapes.{Shaped, Lined, NoLine, NoList, Counted, Stored, Turned};
ghost use Rattle.changes.specs.Calls.{Read};

use crate::words::Word;
use crate::writable::{LAST_LEAF, is_writable};
use interval::stretches::TOP;
use lexis::keyword::Keyword;
use lexis::lost::Lost;
use lexis::reader::Reader;
use lexis::tokens::Divider;
use model::changes::{Action, Change};
use model::kinds::Kind;
use model::places::Place;
use model::ranges::Range;

// Goes over `text`, and then a number up to `most` and the divider `end`.
fn number_after(reader: &mut Reader, text: &[u8], most: u64, end: Divider) -> Result<u64, Lost>
    ensures moves { Moves (After text.now (Number 16 most end)) reader.old result reader.new }
    ensures small { IfOk result (λ n. n ≤ most) }
{
    reader.literal(text)?;
    reader.number(most, end)
}

// Goes over `text`, and then one of the words of K.
fn choice_after<K: Keyword>(reader: &mut Reader, text: &[u8]) -> Result<K, Lost>
    ensures { Moves (After text.now (Chosen K.Keyword.word)) reader.old result reader.new }
{
    reader.literal(text)?;
    reader.choice()
}

// Goes over a change line of the right shape.
fn shaped_line(reader: &mut Reader) -> Result<Change, Lost>
    ensures { Moves Shaped reader.old result reader.new }
{
    let Word(action) = choice_after::<Word<Action>>(reader, b"(")?;
    let start = number_after(reader, b" (at ", TOP, Divider::Close)?;
    let length = number_after(reader, b" (length ", TOP, Divider::Close)?;
    let leaf = number_after(reader, b" (leaf ", u64::from(LAST_LEAF), Divider::Space)?;
    let device = number_after(reader, b"(device ", u64::from(u16::MAX), Divider::Close)?;
    let offset = number_after(reader, b" (offset ", TOP, Divider::Close)?;
    let Word(kind) = choice_after::<Word<Kind>>(reader, b") (kind ")?;
    let Word(writes) = choice_after::<Word<bool>>(reader, b") (writes ")?;
    reader.literal(b"))\n")?;
    // The casts lose nothing, since the limits above are below 2^8 and 2^16.
    let label = Place {
        leaf: leaf as u8,
        device: device as u16,
        offset,
        kind,
        writes,
    };
    let range = Range {
        start,
        length,
        label,
    };
    Ok(action.entry(range))
}

// The line at the front of `bytes`, and the rest.
fn change_at(bytes: &[u8]) -> Option<(Change, &[u8])>
    ensures { MatchOption result (NoLine bytes.now) (λ p. Got Lined bytes.now p.0 p.1.now) }
{
    let mut reader = Reader::new(bytes);
    let change = shaped_line(&mut reader).ok()?;
    if !is_writable(&change) {
        return None;
    }
    Some((change, reader.rest()))
}

// No line that may stand in a list.
#[derive(Clone, Copy)]
struct BadLine;

// The lines of some bytes, in turn. None comes after one that fails.
#[derive(Drop)]
struct Lines<'a>(&'a [u8]);

impl<'a> Iterator for Lines<'a> {
    type Item = Result<Change, BadLine>;

    ghost next_gives = { λ s r t. Turned s.0.now r t.0.now };

    ghost remaining = { λ s. at_most (length s.0.now) };

    fn next(&mut self) -> Option<Result<Change, BadLine>> {
        if self.0.is_empty() {
            return None;
        }
        let Some((change, after)) = change_at(self.0) else {
            self.0 = &[];
            return Some(Err(BadLine));
        };
        self.0 = after;
        Some(Ok(change))
    }
}

// How many lines `bytes` is.
fn count_lines(bytes: &[u8]) -> Option<usize>
    ensures { MatchOption result (NoList bytes.now) (λ n. Counted bytes.now n) }
{
    let mut n = 0;
    for line in Lines(bytes) {
        line.ok()?;
        n += 1;
    }
    Some(n)
}

// Stores the changes of the lines of `bytes`, as many as there is room for.
fn store_changes(bytes: &[u8], records: &mut [Change])
    ensures { Stored bytes.now records.old records.new }
{
    let mut lines = Lines(bytes);
    for record in records.iter_mut() {
        let Some(line) = lines.next() else {
            return;
        };
        let Ok(change) = line else {
            return;
        };
        *record = change;
    }
}

// Reads a change list into the front of `records`, and answers how many changes it has.
pub fn read_changes(bytes: &[u8], records: &mut [Change]) -> Option<usize>
    ensures { Read bytes.now records.old records.new result }
{
    let n = count_lines(bytes)?;
    if n > records.len() {
        return None;
    }
    store_changes(bytes, records);
    Some(n)
}
