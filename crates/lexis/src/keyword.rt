// Closed sets of words.
ghost use Rattle.std.specs.Prelude.{◌≡◌, ℕ, List};
ghost use Rattle.lexis.specs.Lang.{Vocabulary, Chosen};
ghost use Rattle.lexis.specs.Moving.{rest_of, column_of};
ghost use Rattle.lexis.specs.Reading.{Reading};

use crate::fronts::common;
use crate::lost::Lost;
use crate::reader::Reader;

// A closed set of words, none of which begins another: all its members, and the text of each.
pub trait Keyword: Copy + 'static {
    ghost word: { Self → List ℕ };

    ghost all: { List Self };

    fn all() -> &'static [Self]
        ensures { result.now ≡ all };

    fn word(self) -> &'static [u8]
        ensures { result.now ≡ word self };

    ghost lawful: { Vocabulary word all };
}

// The word of K at the front of what a reader has left and the rest, or the column at which they fail.
pub(crate) fn keyword_at<'a, K: Keyword>(reader: &Reader<'a>) -> Result<(K, &'a [u8]), Lost>
    ensures { Reading (Chosen K.Keyword.word) (rest_of reader.now) (column_of reader.now) result }
{
    let line = reader.rest();
    let mut best = 0;
    for k in K::all() {
        let word = k.word();
        let n = common(word, line);
        if n == word.len() {
            return Ok((*k, &line[n..]));
        }
        best = n.max(best);
    }
    Err(Lost {
        column: reader.column() + best,
    })
}
