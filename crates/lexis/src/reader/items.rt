// What a reader goes over: fixed text, numbers and keywords.
ghost use Rattle.std.specs.Prelude.{◌≡◌, ◌+◌, ◌≤◌, length, drop, is_some, Some, None, IfOk, MatchResult};
ghost use Rattle.lexis.specs.Lang.{Literal, Chosen};
ghost use Rattle.lexis.specs.Moving.{rest_of, column_of, lost_of, Moves, Within, Follows};
ghost use Rattle.lexis.specs.Numeral.{Number};

use super::Reader;
use crate::fronts::common;
use crate::keyword::{Keyword, keyword_at};
use crate::lost::Lost;
use crate::numbers::number_at;
use crate::tokens::Divider;

impl<'a> Reader<'a> {
    // A reader at the first column of a line.
    pub fn new(text: &'a [u8]) -> Reader<'a>
        ensures rest { rest_of result ≡ text.now }
        ensures column { column_of result ≡ 1 }
        ensures lost { lost_of result ≡ None }
    {
        Reader {
            rest: text,
            column: 1,
            lost: None,
        }
    }

    pub fn rest(&self) -> &'a [u8]
        ensures { result.now ≡ rest_of self.now }
    {
        self.rest
    }

    pub fn column(&self) -> usize
        ensures { result ≡ column_of self.now }
    {
        self.column
    }

    // Whether the line has failed.
    pub fn is_lost(&self) -> bool
        ensures { result ≡ is_some (lost_of self.now) }
    {
        self.lost.is_some()
    }

    // Where the reader is lost, why it was.
    fn going(&self) -> Result<(), Lost>
        ensures { MatchResult result (λ _. lost_of self.now ≡ None) (λ e. lost_of self.now ≡ Some e) }
    {
        self.lost.map_or(Ok(()), Err)
    }

    // Goes on by `n` bytes.
    fn skip(&mut self, n: usize)
        requires inside { n ≤ length (rest_of self.old) }
        requires going { lost_of self.old ≡ None }
        ensures rest { rest_of self.new ≡ drop n (rest_of self.old) }
        ensures column { column_of self.new ≡ column_of self.old + n }
        ensures going { lost_of self.new ≡ None }
    {
        let rest = self.rest;
        self.rest = &rest[n..];
        self.column += n;
    }

    // Goes on to the rest that a reading left, or to where it failed.
    fn follow<T: Copy>(&mut self, reading: Result<(T, &'a [u8]), Lost>) -> Result<T, Lost>
        requires within { Within self.old reading }
        requires going { lost_of self.old ≡ None }
        ensures { Follows self.old reading.entry result self.new }
    {
        match reading {
            Ok((value, after)) => {
                self.skip(self.rest.len() - after.len());
                Ok(value)
            }
            Err(lost) => {
                self.skip(lost.column - self.column);
                self.lost = Some(lost);
                Err(lost)
            }
        }
    }

    // Goes over `text`. A reader that is lost stays where it is, here and below, and answers why it was
    // lost.
    pub fn literal(&mut self, text: &[u8]) -> Result<(), Lost>
        ensures { Moves (Literal text.now) self.old result self.new }
    {
        self.going()?;
        let n = common(text, self.rest);
        self.skip(n);
        if n < text.len() {
            let lost = Lost {
                column: self.column,
            };
            self.lost = Some(lost);
            return Err(lost);
        }
        Ok(())
    }

    // Goes over a hexadecimal number up to `most` and the divider `end`.
    pub fn number(&mut self, most: u64, end: Divider) -> Result<u64, Lost>
        ensures moves { Moves (Number 16 most end) self.old result self.new }
        ensures small { IfOk result (λ n. n ≤ most) }
    {
        self.going()?;
        let reading = number_at(self, most, end);
        self.follow(reading)
    }

    // Goes over one of the words of K.
    pub fn choice<K: Keyword>(&mut self) -> Result<K, Lost>
        ensures { Moves (Chosen K.Keyword.word) self.old result self.new }
    {
        self.going()?;
        let reading = keyword_at::<K>(self);
        self.follow(reading)
    }
}
