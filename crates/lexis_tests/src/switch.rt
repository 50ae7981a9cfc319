// A keyword for the tests.
ghost use Rattle.lexis_tests.specs.Switches.{switch_word, switches};
ghost use Rattle.lexis_tests.specs.SwitchSet.{switch_set};

use lexis::keyword::Keyword;

#[derive(Clone, Copy, Debug, PartialEq)]
pub enum Switch {
    On,
    Off,
}

impl Keyword for Switch {
    ghost word = { switch_word };

    ghost all = { switches };

    ghost lawful = { switch_set };

    fn all() -> &'static [Switch] {
        &[Switch::On, Switch::Off]
    }

    fn word(self) -> &'static [u8] {
        match self {
            Switch::On => b"on)",
            Switch::Off => b"off)",
        }
    }
}
