// How many entries of a change list remove, and how many add.
ghost use Rattle.std.specs.Prelude.{◌≡◌, ◌+◌, nat_le};

#[derive(Clone, Copy, Debug, PartialEq, Eq)]
pub struct Counts {
    pub removed: usize,
    pub added: usize,
}

impl Counts {
    // Whether so many entries fit into a list of `room` records.
    pub fn fit(self, room: usize) -> bool
        ensures { result ≡ nat_le (self.removed + self.added) room }
    {
        self.removed <= room && self.added <= room - self.removed
    }
}
