// A tree of regions with what every edit keeps true of it.
ghost use Rattle.std.specs.Prelude.{ℕ, ◌≤◌};
ghost use Rattle.tree.specs.Model.{model_of};
ghost use Rattle.tree.specs.Paths.{Path};

use crate::table::Table;

// No path along its edges has more than 8 edges, so none comes back to its start.
#[derive(Clone, Copy)]
pub struct Tree {
    pub table: Table,
    ghost short: { (r s n : ℕ) → Path (model_of table) r n s → n ≤ 8 },
}
