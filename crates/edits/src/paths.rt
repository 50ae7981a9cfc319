// Tests of the paths along the edges of a table, from parent to child and from alias to target, by
// rounds over all edges.
ghost use Rattle.std.specs.Prelude.{◌≡◌, ℕ, ◌<◌};
ghost use Rattle.std.specs.List.{list_any};
ghost use Rattle.tree.specs.Model.{model_of};
ghost use Rattle.edits.specs.Edges.{OneNew};
ghost use Rattle.edits.specs.Marks.{IsSetOf, has, just};
ghost use Rattle.edits.specs.PathTests.{comes_back, onward, reaches, too_long};
ghost use Rattle.edits.specs.Rows.{path_rows};
ghost use Rattle.model.specs.Rows.{first_applying, told};

use crate::checks::refuse_if;
use crate::marks::Marks;
use model::faults::Fault;
use tree::table::Table;

// One edge more than a path may have.
const TOO_FAR: usize = 9;

// The regions from which an edge leads to a marked one.
fn step_back(table: &Table, marked: &Marks) -> Marks
    ensures { IsSetOf (λ k. list_any (has marked.now) (onward (model_of table.now) k)) result }
{
    let mut before = Marks::none();
    before.add_parents(table.order.attachments(), marked);
    before.add_aliases(&table.regions, marked);
    before
}

// The regions from which a path of `TOO_FAR` edges leads to one of `last`, or of fewer, but one at
// least, to `always`.
fn rounds_back(table: &Table, last: Marks, always: Option<u8>) -> Marks
    ensures { IsSetOf (reaches (model_of table.now) (has last) (just always) 9) result }
{
    let mut marked = last;
    for _ in 0..TOO_FAR {
        marked.add_some(always);
        marked = step_back(table, &marked);
    }
    marked
}

// Whether some path has over 8 edges.
fn is_too_long(table: &Table) -> bool
    ensures { result ≡ too_long (model_of table.now) }
{
    let anywhere = Marks::all();
    !rounds_back(table, anywhere, None).is_empty()
}

// Whether some path comes back to its start. Just one edge is new, from the region `from`, and before
// it no path had over 8 edges: so such a path leads from `from` back to it within 9.
fn comes_back(table: &Table, from: u8) -> bool
    requires { OneNew (model_of table.now) from }
    ensures { result ≡ comes_back (model_of table.now) }
{
    let nowhere = Marks::none();
    rounds_back(table, nowhere, Some(from)).has(from)
}

// Refuses a path that comes back or is too long, in a table with one new edge, from a region.
pub(crate) fn check_paths(table: &Table, from: u8) -> Result<(), Fault>
    requires { OneNew (model_of table.now) from }
    ensures { result ≡ told (first_applying (path_rows (model_of table.now))) }
{
    refuse_if(comes_back(table, from), Fault::Cycle)?;
    refuse_if(is_too_long(table), Fault::TooDeep)
}
