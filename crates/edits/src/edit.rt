// What may be asked of a tree, and what a bank says of a device.
use model::kinds::Kind;

// One edit of a tree. The numbers are as wide as a caller's: what is out of its bounds is refused.
#[derive(Clone, Copy)]
pub enum Edit {
    Container {
        number: u64,
        size: u64,
    },
    Leaf {
        number: u64,
        size: u64,
        device: u64,
    },
    Alias {
        number: u64,
        size: u64,
        target: u64,
        from: u64,
    },
    Attach {
        number: u64,
        parent: u64,
        offset: u64,
        priority: i16,
    },
    Detach {
        number: u64,
    },
    Move {
        number: u64,
        offset: u64,
    },
    // On or off, and protected or not: there is no third state that an enum could name.
    Switch {
        number: u64,
        on: bool,
    },
    Protect {
        number: u64,
        on: bool,
    },
    Remove {
        number: u64,
    },
}

// A device as its bank has it: its kind, and how many bytes it has.
#[derive(Clone, Copy)]
pub struct Backing {
    pub kind: Kind,
    pub length: u64,
}
