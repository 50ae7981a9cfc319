// The sizes that a region may have.
ghost use Rattle.std.specs.Prelude.{◌≡◌, cond, Ok, Err};
ghost use Rattle.tree.specs.Bounds.{bad_size};

use interval::stretches::TOP;
use model::faults::Fault;

// Refuses a size that no region may have.
pub fn check_size(size: u64) -> Result<(), Fault>
    ensures { result ≡ cond (bad_size size) (Err Fault.BadSize) (Ok tt) }
{
    if size == 0 || size > TOP {
        return Err(Fault::BadSize);
    }
    Ok(())
}
