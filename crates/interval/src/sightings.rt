// What stands at an address, and how far.
ghost use Rattle.std.specs.Prelude.{◌≡◌};
ghost use Rattle.interval.specs.Sightings.{nothing};

// What stands at an address, and for how many addresses from there on it stays none or runs on.
#[derive(Clone, Copy)]
pub struct Sighting<L> {
    pub label: Option<L>,
    pub extent: u64,
}

impl<L> Sighting<L> {
    // No label for as long as the limit goes.
    pub fn nothing(limit: u64) -> Sighting<L>
        ensures { result ≡ nothing limit }
    {
        Sighting {
            label: None,
            extent: limit,
        }
    }
}
