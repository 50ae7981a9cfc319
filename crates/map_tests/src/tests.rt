use edits::apply::edit;
use edits::edit::{Backing, Edit};
use flat::flat_map::FlatMap;
use model::faults::Fault;
use model::kinds::Kind;
use std::process::Abort;
use std::test::Fail;
use tree::tree::Tree;

const RAM: Backing = Backing {
    kind: Kind::Ram,
    length: 8192,
};

// The size of a leaf, and of the gap behind it.
const PIECE: u64 = 0x10;

// A container that holds others side by side.
const ROW: u64 = 1;

const LEAF: u64 = 2;

const GRID: u64 = 3;

const CUBE: u64 = 4;

fn attach(tree: &mut Tree, number: u64, parent: u64, offset: u64) -> Result<(), Fault> {
    let priority = 0;
    edit(
        tree,
        Edit::Attach {
            number,
            parent,
            offset,
            priority,
        },
        RAM,
    )
}

fn alias(tree: &mut Tree, number: u64, size: u64, target: u64, from: u64) -> Result<(), Fault> {
    edit(
        tree,
        Edit::Alias {
            number,
            size,
            target,
            from,
        },
        RAM,
    )
}

// Makes the container `number` of `count` aliases of `target`, `step` addresses apart, under the
// numbers from `first` on.
fn repeat(
    tree: &mut Tree,
    number: u64,
    target: u64,
    step: u64,
    first: u64,
    count: u64,
) -> Result<(), Fault> {
    let size = step.saturating_mul(count);
    edit(tree, Edit::Container { number, size }, RAM)?;
    for i in 0..count {
        let copy = first.saturating_add(i);
        alias(tree, copy, step, target, 0)?;
        attach(tree, copy, number, step.saturating_mul(i))?;
    }
    Ok(())
}

// A tree with a leaf, rows of 16 of it with a gap behind each, and a grid of 16 such rows, which the
// root shows.
fn grid(root_size: u64) -> Result<Tree, Fault> {
    let mut tree = Tree::new(root_size)?;
    let leaf = Edit::Leaf {
        number: LEAF,
        size: PIECE,
        device: 0,
    };
    edit(&mut tree, leaf, RAM)?;
    repeat(&mut tree, ROW, LEAF, 2 * PIECE, 10, 16)?;
    repeat(&mut tree, GRID, ROW, 32 * PIECE, 30, 16)?;
    attach(&mut tree, GRID, 0, 0)?;
    Ok(tree)
}

fn expect_full(rt: &impl Abort, tree: &Tree) -> Result<(), Fail> {
    match FlatMap::of(tree) {
        Ok(_) => Err(Fail::new("a map of over 256 ranges")),
        Err(fault) => {
            assert_eq!(rt; fault, Fault::MapFull);
            Ok(())
        },
    }
}

#[test]
fn as_many_ranges_as_a_map_holds(rt: HostRuntime) -> Result<(), Fail> {
    let mut tree = grid(0x10000)?;
    assert_eq!(rt; FlatMap::of(&tree)?.len(), 256);
    alias(&mut tree, 5, PIECE, LEAF, 0)?;
    attach(&mut tree, 5, 0, 0x8000)?;
    expect_full(&rt, &tree)
}

// A cube of 16 grids has 4,096 leaves. The root shows 384 of them, until a leaf covers some.
#[test]
fn thousands_of_leaves_of_which_few_show(rt: HostRuntime) -> Result<(), Fail> {
    let mut tree = grid(0x3000)?;
    repeat(&mut tree, CUBE, GRID, 512 * PIECE, 46, 16)?;
    attach(&mut tree, CUBE, 0, 0)?;
    expect_full(&rt, &tree)?;
    let cover = Edit::Leaf {
        number: 6,
        size: 0x1020,
        device: 0,
    };
    edit(&mut tree, cover, RAM)?;
    attach(&mut tree, 6, 0, 0x1800)?;
    assert_eq!(rt; FlatMap::of(&tree)?.len(), 256);
    Ok(())
}

#[test]
fn pieces_that_join_into_one(rt: HostRuntime) -> Result<(), Fail> {
    let mut tree = Tree::new(0x10000)?;
    let leaf = Edit::Leaf {
        number: LEAF,
        size: 0x1000,
        device: 0,
    };
    edit(&mut tree, leaf, RAM)?;
    for i in 0..40 {
        alias(&mut tree, 10 + i, PIECE, LEAF, PIECE * i)?;
        attach(&mut tree, 10 + i, 0, PIECE * i)?;
    }
    let map = FlatMap::of(&tree)?;
    assert_eq!(rt; map.len(), 1);
    assert_eq!(rt; map.find(40 * PIECE), None);
    Ok(())
}
