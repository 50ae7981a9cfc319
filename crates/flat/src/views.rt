// What a sweep is shown.
ghost use Rattle.tree.specs.Model.{model_of};
ghost use Rattle.tree.specs.Search.{search};

use interval::sightings::Sighting;
use model::places::Place;
use sweep::sources::Source;
use tree::tree::Tree;

// The places of the guest addresses of a tree.
#[derive(Drop)]
pub(crate) struct TreeView<'a> {
    pub(crate) tree: &'a Tree,
}

impl<'a> Source for TreeView<'a> {
    type Shown = Place;

    ghost shows = { λ v. search (model_of v.tree.now.table) };

    fn sight(&self, address: u64, limit: u64) -> Sighting<Place> {
        self.tree.probe(address, limit)
    }
}
