// A listener for every kind.
ghost use Rattle.std.specs.Prelude.{◌≡◌};
ghost use Rattle.listener.specs.Hearing.{vacant};
ghost use Rattle.listener.specs.Slots.{every_kind};

use crate::listener::Listener;
use crate::slots::{KindSet, Slots};
use model::kinds::Kind;

// Every kind is taken.
#[derive(Clone, Copy)]
pub struct EveryKind;

impl KindSet for EveryKind {
    ghost taken = { every_kind };

    fn takes(_kind: Kind) -> bool {
        true
    }
}

// Up to 256 ranges.
pub type RangeTable = Slots<EveryKind, 256>;

impl Slots<EveryKind, 256> {
    pub fn new() -> RangeTable
        ensures { ⟦<RangeTable as Listener>⟧.hearing result ≡ vacant every_kind 256 }
    {
        Slots::vacant()
    }
}
