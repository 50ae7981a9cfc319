use edits::apply::edit;
use edits::edit::{Backing, Edit};
use model::kinds::Kind;
use model::places::Place;
use std::process::Abort;
use std::test::Fail;
use tree::tree::Tree;

// Each crate of tests has one of its own, since crates share no tests.
const RAM: Backing = Backing {
    kind: Kind::Ram,
    length: 8192,
};

const LEAF_1: Edit = Edit::Leaf {
    number: 1,
    size: 0x1000,
    device: 1,
};

const LEAF_2: Edit = Edit::Leaf {
    number: 2,
    size: 0x1000,
    device: 2,
};

fn attach(number: u64, parent: u64, offset: u64, priority: i16) -> Edit {
    Edit::Attach {
        number,
        parent,
        offset,
        priority,
    }
}

// An alias of 0x800 bytes of leaf 1.
fn alias(number: u64, from: u64) -> Edit {
    Edit::Alias {
        number,
        size: 0x800,
        target: 1,
        from,
    }
}

// An offset of a leaf, which shows the device of its own number.
fn at(leaf: u8, offset: u64) -> Option<Place> {
    Some(Place {
        leaf,
        device: u16::from(leaf),
        offset,
        kind: Kind::Ram,
        writes: true,
    })
}

fn apply(tree: &mut Tree, edits: &[Edit]) -> Result<(), Fail> {
    for step in edits {
        edit(tree, *step, RAM)?;
    }
    Ok(())
}

fn expect(rt: &impl Abort, tree: &Tree, samples: &[(u64, Option<Place>)]) {
    for sample in samples {
        assert_eq!(rt; tree.find(sample.0), sample.1);
    }
}

#[test]
fn leaves_beside_and_over_each_other(rt: HostRuntime) -> Result<(), Fail> {
    let mut tree = Tree::new(0x10000)?;
    expect(&rt, &tree, &[(0, None), (0xffff, None), (0x10000, None)]);
    apply(&mut tree, &[LEAF_1, attach(1, 0, 0x2000, 0)])?;
    expect(
        &rt,
        &tree,
        &[(0x1fff, None), (0x2fff, at(1, 0xfff)), (0x3000, None)],
    );
    apply(&mut tree, &[LEAF_2, attach(2, 0, 0x2800, 0)])?;
    expect(
        &rt,
        &tree,
        &[
            (0x27ff, at(1, 0x7ff)),
            (0x2800, at(2, 0)),
            (0x37ff, at(2, 0xfff)),
        ],
    );
    let again = Edit::Move {
        number: 1,
        offset: 0x2000,
    };
    apply(&mut tree, &[again])?;
    expect(
        &rt,
        &tree,
        &[(0x2800, at(1, 0x800)), (0x3000, at(2, 0x800))],
    );
    Ok(())
}

#[test]
fn priorities_count_in_one_parent(rt: HostRuntime) -> Result<(), Fail> {
    let mut tree = Tree::new(0x10000)?;
    let holder = Edit::Container {
        number: 3,
        size: 0x1000,
    };
    apply(&mut tree, &[LEAF_1, LEAF_2, holder, attach(2, 3, 0, 100)])?;
    apply(
        &mut tree,
        &[attach(3, 0, 0x2000, -1), attach(1, 0, 0x2000, 0)],
    )?;
    expect(
        &rt,
        &tree,
        &[(0x2000, at(1, 0)), (0x2fff, at(1, 0xfff)), (0x3000, None)],
    );
    Ok(())
}

#[test]
fn windows_end_where_a_region_does(rt: HostRuntime) -> Result<(), Fail> {
    let mut tree = Tree::new(0x10000)?;
    apply(&mut tree, &[LEAF_1, attach(1, 0, 0xf800, 0)])?;
    expect(
        &rt,
        &tree,
        &[(0xf7ff, None), (0xffff, at(1, 0x7ff)), (0x10000, None)],
    );
    apply(&mut tree, &[alias(2, 0xc00), attach(2, 0, 0x8000, 0)])?;
    expect(
        &rt,
        &tree,
        &[
            (0x8000, at(1, 0xc00)),
            (0x83ff, at(1, 0xfff)),
            (0x8400, None),
        ],
    );
    Ok(())
}

#[test]
fn aliases_side_by_side(rt: HostRuntime) -> Result<(), Fail> {
    let mut tree = Tree::new(0x10000)?;
    apply(&mut tree, &[LEAF_1, alias(2, 0), alias(3, 0x800)])?;
    apply(
        &mut tree,
        &[attach(2, 0, 0x8000, 0), attach(3, 0, 0x8800, 0)],
    )?;
    expect(
        &rt,
        &tree,
        &[
            (0x87ff, at(1, 0x7ff)),
            (0x8800, at(1, 0x800)),
            (0x9000, None),
        ],
    );
    Ok(())
}
