// The words of a change line.
ghost use Rattle.changes.specs.Words.{spelt, words, action_text, actions, kind_text, kinds, writes_text, verdicts};
ghost use Rattle.changes.specs.WordSets.{action_set, kind_set, writes_set};

use lexis::keyword::Keyword;
use model::changes::Action;
use model::kinds::Kind;

// A value as a word of a line; the wrapper is there since the values are other crates' types.
#[derive(Clone, Copy)]
pub(crate) struct Word<T>(pub(crate) T);

impl Keyword for Word<Action> {
    ghost word = { spelt action_text };

    ghost all = { words actions };

    ghost lawful = { action_set };

    fn all() -> &'static [Word<Action>] {
        &[Word(Action::Addition), Word(Action::Removal)]
    }

    fn word(self) -> &'static [u8] {
        match self.0 {
            Action::Addition => b"+",
            Action::Removal => b"-",
        }
    }
}

impl Keyword for Word<Kind> {
    ghost word = { spelt kind_text };

    ghost all = { words kinds };

    ghost lawful = { kind_set };

    fn all() -> &'static [Word<Kind>] {
        &[Word(Kind::Ram), Word(Kind::Rom), Word(Kind::Reg)]
    }

    fn word(self) -> &'static [u8] {
        match self.0 {
            Kind::Ram => b"ram",
            Kind::Rom => b"rom",
            Kind::Reg => b"reg",
        }
    }
}

// Whether writes are let through.
impl Keyword for Word<bool> {
    ghost word = { spelt writes_text };

    ghost all = { words verdicts };

    ghost lawful = { writes_set };

    fn all() -> &'static [Word<bool>] {
        &[Word(true), Word(false)]
    }

    fn word(self) -> &'static [u8] {
        if self.0 { b"yes" } else { b"no" }
    }
}
