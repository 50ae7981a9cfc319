// Making flat maps.
ghost use Rattle.std.specs.Prelude.{◌≡◌, ◌^◌, ◌≤◌, []};
ghost use Rattle.sweep.specs.Laws.{below};
ghost use Rattle.sweep.specs.Maps.{stretches};
ghost use Rattle.model.specs.Places.{moved, same_place};
ghost use Rattle.tree.specs.Model.{model_of};
ghost use Rattle.tree.specs.Search.{search};
ghost use Rattle.flat.specs.Laws.{AllLie, Flattened, OnlyMap, RuledBy};
ghost use Rattle.flat.specs.Maps.{map_of, ranges_of, fitting, told};
ghost use Rattle.flat.specs.Overlays.{Layered};

use crate::flat_map::FlatMap;
use crate::views::TreeView;
use interval::maps::IntervalMap;
use model::faults::Fault;
use model::places::Place;
use model::ranges::{CAPACITY, UNUSED};
use sweep::sources::Source;
use sweep::sweeps::sweep;
use tree::tree::Tree;

// What a source shows below `size`, as a map if that has at most 256 ranges.
pub(crate) fn flattened<S: Source<Shown = Place>>(source: &S, size: u64) -> Result<FlatMap, Fault>
    requires { size ≤ 2 ^ 40 }
    ensures is { told result ≡ fitting (stretches moved same_place (S.Source.shows source.now) 0 size) }
    ensures stands { Flattened (below size (S.Source.shows source.now)) result }
{
    let mut records = [UNUSED; CAPACITY];
    let used = sweep(source, size, &mut records).map_err(|_| Fault::MapFull)?;
    // What a sweep leaves is in order, so that the map is never refused.
    let Ok(map) = IntervalMap::from_table(records, used) else {
        return Err(Fault::MapFull);
    };
    Ok(FlatMap { map })
}

impl FlatMap {
    // No range.
    pub fn empty() -> FlatMap
        ensures { ranges_of result ≡ [] }
    {
        FlatMap {
            map: IntervalMap::new(UNUSED),
        }
    }

    // The map of a tree, if it has at most 256 ranges.
    pub fn of(tree: &Tree) -> Result<FlatMap, Fault>
        ensures is { told result ≡ fitting (map_of (model_of tree.now.table)) }
        ensures stands { Flattened (search (model_of tree.now.table)) result }
        ensures map { OnlyMap (search (model_of tree.now.table)) (map_of (model_of tree.now.table)) }
        ensures ruled { RuledBy (model_of tree.now.table) (map_of (model_of tree.now.table)) }
        ensures lie { AllLie (model_of tree.now.table) (map_of (model_of tree.now.table)) }
        ensures layers { Layered (model_of tree.now.table) }
    {
        flattened(&TreeView { tree }, tree.root_size())
    }
}
