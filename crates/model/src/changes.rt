// Entries of a change list.
ghost use Rattle.std.specs.Prelude.{◌≡◌};
ghost use Rattle.model.specs.Changes.{entry as entry_of, action_of, range_of};

use crate::ranges::Range;

// A range goes, or a range comes. An enum, since tests and contracts match on its variants.
#[derive(Clone, Copy, Debug, PartialEq, Eq)]
pub enum Change {
    Removal(Range),
    Addition(Range),
}

// What a change does with its range.
#[derive(Clone, Copy, Debug, PartialEq, Eq)]
pub enum Action {
    Removal,
    Addition,
}

impl Action {
    // The change that does this with the range.
    pub fn entry(self, range: Range) -> Change
        ensures { result ≡ entry_of self range }
    {
        match self {
            Action::Removal => Change::Removal(range),
            Action::Addition => Change::Addition(range),
        }
    }
}

impl Change {
    pub fn action(self) -> Action
        ensures { result ≡ action_of self }
    {
        match self {
            Change::Removal(_) => Action::Removal,
            Change::Addition(_) => Action::Addition,
        }
    }

    pub fn range(self) -> Range
        ensures { result ≡ range_of self }
    {
        match self {
            Change::Removal(range) | Change::Addition(range) => range,
        }
    }
}
