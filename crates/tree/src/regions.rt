// Regions of a guest address space, and how one lies in another.
ghost use Rattle.std.specs.Prelude.{◌≡◌};
ghost use Rattle.tree.specs.Model.{fresh, target_of};

use model::kinds::Kind;

// What a region shows.
#[derive(Clone, Copy, Debug, PartialEq, Eq)]
pub enum Body {
    // Its subregions.
    Container,
    // The bytes of a device from the first on; a device's kind never changes.
    Leaf { device: u16, kind: Kind },
    // Another region, from the offset `from` on.
    Alias { target: u8, from: u64 },
}

// Whether it is on, and whether it has the protect mark, do not depend on its body or on one another.
#[derive(Clone, Copy, Debug, PartialEq, Eq)]
pub struct Region {
    pub body: Body,
    pub size: u64,
    pub on: bool,
    pub protected: bool,
}

impl Region {
    // A region as it is made: switched on, and not protected.
    pub fn new(body: Body, size: u64) -> Region
        ensures { result ≡ fresh body size }
    {
        Region {
            body,
            size,
            on: true,
            protected: false,
        }
    }

    // The region that an alias shows.
    pub fn target(&self) -> Option<u8>
        ensures { result ≡ target_of self.now.body }
    {
        match self.body {
            Body::Alias { target, .. } => Some(target),
            Body::Container | Body::Leaf { .. } => None,
        }
    }
}

// The region `child` lies at `offset` in the container `parent`.
#[derive(Clone, Copy, Debug, PartialEq, Eq)]
pub struct Attachment {
    pub child: u8,
    pub parent: u8,
    pub offset: u64,
    pub priority: i16,
}
