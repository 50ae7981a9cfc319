// What was seen of an address: a label that stays as it is along a stretch.
ghost use Rattle.model.specs.Touches.{kept_mark, same_touch};
ghost use Rattle.std.proofs.Common.{rules};

use interval::labels::{Label, SameLabel};

#[derive(Clone, Copy, Debug, PartialEq, Eq)]
pub enum Touch {
    Read,
    Written,
    Both,
}

impl Label for Touch {
    ghost advanced = { kept_mark };

    ghost zero = { Prim.search rules };

    ghost sum = { Prim.search rules };

    fn advance(&self, _by: u64) -> Touch {
        *self
    }
}

// The sameness is the derived equality; `exact` adds that two marks it calls equal are one.
impl SameLabel for Touch {
    ghost matches = { same_touch };

    ghost exact = { Prim.search rules };

    fn same(&self, other: &Touch) -> bool {
        *self == *other
    }
}
