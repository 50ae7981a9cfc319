// The search, over a stretch of addresses at once.
ghost use Rattle.std.specs.Prelude.{◌≡◌, ◌≤◌, false};
ghost use Rattle.interval.specs.Sightings.{nothing};
ghost use Rattle.tree.specs.Finds.{Finds};
ghost use Rattle.tree.specs.Model.{model_of, subregions};
ghost use Rattle.tree.specs.Search.{leaf_place, root_size, search};
ghost use Rattle.tree.specs.Sights.{Agrees, Ruled, SeesAt, SeesIn, SeesUnder};

use crate::regions::Body;
use crate::tree::Tree;
use interval::sightings::Sighting;
use model::kinds::Kind;
use model::places::Place;

// No path has more than 8 edges, so a search goes through at most 9 regions.
const DEPTH: u8 = 9;

// What a search asks of a region: what stands at an address in it, whether a region above it has the
// protect mark, and for how many addresses on the answer is to hold.
#[derive(Clone, Copy)]
struct Probe {
    address: u64,
    mark: bool,
    limit: u64,
}

impl Probe {
    // The place in a leaf.
    fn place_in_leaf(&self, leaf: u8, device: u16, kind: Kind) -> Place
        ensures { result ≡ leaf_place leaf device kind self.now.address self.now.mark }
    {
        let writes = match kind {
            Kind::Rom => false,
            Kind::Ram | Kind::Reg => !self.mark,
        };
        Place {
            leaf,
            device,
            offset: self.address,
            kind,
            writes,
        }
    }
}

// The search in a region, through at most `fuel` regions one below the other.
#[cycle(seek_seek_under)]
fn seek(tree: &Tree, number: u8, probe: Probe, fuel: u8) -> Sighting<Place>
    ensures { SeesIn fuel (model_of tree.now.table) number probe.address probe.mark probe.limit result }
{
    if fuel == 0 {
        return Sighting::nothing(probe.limit);
    }
    let Some(region) = tree.region(u64::from(number)) else {
        return Sighting::nothing(probe.limit);
    };
    if !region.on || probe.address >= region.size {
        return Sighting::nothing(probe.limit);
    }
    let inside = Probe {
        mark: probe.mark || region.protected,
        limit: probe.limit.min(region.size - probe.address),
        ..probe
    };
    match region.body {
        Body::Leaf { device, kind } => {
            let place = inside.place_in_leaf(number, device, kind);
            Sighting {
                label: Some(place),
                extent: inside.limit,
            }
        }
        Body::Alias { target, from } => {
            let address = probe.address + from;
            seek(tree, target, Probe { address, ..inside }, fuel - 1)
        }
        Body::Container => seek_under(tree, number, inside, fuel - 1),
    }
}

// The same among the subregions of a container.
#[cycle(seek_seek_under)]
fn seek_under(tree: &Tree, parent: u8, probe: Probe, fuel: u8) -> Sighting<Place>
    ensures { SeesUnder fuel (model_of tree.now.table) (subregions (model_of tree.now.table) parent) probe.address probe.mark probe.limit result }
{
    let mut limit = probe.limit;
    for attachment in tree.table.order.attachments() {
        if attachment.parent != parent {
            continue;
        }
        if probe.address < attachment.offset {
            limit = limit.min(attachment.offset - probe.address);
            continue;
        }
        let inside = Probe {
            address: probe.address - attachment.offset,
            limit,
            ..probe
        };
        let seen = seek(tree, attachment.child, inside, fuel);
        if seen.label.is_some() {
            return seen;
        }
        limit = seen.extent;
    }
    Sighting::nothing(limit)
}

impl Tree {
    // The search for an address, with for how many addresses on, up to `limit`, it finds nothing or
    // the place runs on. From the size of the root on there is nothing.
    pub fn probe(&self, address: u64, limit: u64) -> Sighting<Place>
        ensures sees { SeesAt (model_of self.now.table) address limit result }
        ensures ruled { Ruled (model_of self.now.table) address result }
        ensures beyond { root_size (model_of self.now.table) ≤ address → result ≡ nothing limit }
    {
        if address >= self.root_size() {
            return Sighting::nothing(limit);
        }
        let probe = Probe {
            address,
            mark: false,
            limit,
        };
        seek(self, 0, probe, DEPTH)
    }

    // The place of a guest address, if it has one.
    pub fn find(&self, address: u64) -> Option<Place>
        ensures is { result ≡ search (model_of self.now.table) address }
        ensures finds { Finds (model_of self.now.table) 0 address false result }
        ensures agrees { Agrees (model_of self.now.table) }
    {
        self.probe(address, 1).label
    }
}
