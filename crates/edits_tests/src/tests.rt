use edits::apply::edit;
use edits::edit::{Backing, Edit};
use interval::stretches::TOP;
use model::faults::Fault;
use model::kinds::Kind;
use std::process::Abort;
use std::test::Fail;
use tree::tree::Tree;

// Each crate of tests has one of its own, since crates share no tests.
const RAM: Backing = Backing {
    kind: Kind::Ram,
    length: 8192,
};

// An edit, and what it answers.
#[derive(Clone, Copy)]
struct Step {
    edit: Edit,
    answer: Result<(), Fault>,
}

impl Step {
    fn new(edit: Edit, answer: Result<(), Fault>) -> Step {
        Step { edit, answer }
    }
}

fn container(number: u64, size: u64, answer: Result<(), Fault>) -> Step {
    Step::new(Edit::Container { number, size }, answer)
}

fn leaf(number: u64, size: u64, device: u64, answer: Result<(), Fault>) -> Step {
    let edit = Edit::Leaf {
        number,
        size,
        device,
    };
    Step::new(edit, answer)
}

fn alias(number: u64, target: u64, from: u64, answer: Result<(), Fault>) -> Step {
    let edit = Edit::Alias {
        number,
        size: 16,
        target,
        from,
    };
    Step::new(edit, answer)
}

fn attach(number: u64, parent: u64, answer: Result<(), Fault>) -> Step {
    attach_at(number, parent, 0, answer)
}

// The same at a priority.
fn attach_at(number: u64, parent: u64, priority: i16, answer: Result<(), Fault>) -> Step {
    let edit = Edit::Attach {
        number,
        parent,
        offset: 0,
        priority,
    };
    Step::new(edit, answer)
}

fn detach(number: u64, answer: Result<(), Fault>) -> Step {
    Step::new(Edit::Detach { number }, answer)
}

fn move_to(number: u64, offset: u64, answer: Result<(), Fault>) -> Step {
    Step::new(Edit::Move { number, offset }, answer)
}

fn switch(number: u64, on: bool, answer: Result<(), Fault>) -> Step {
    Step::new(Edit::Switch { number, on }, answer)
}

fn protect(number: u64, on: bool, answer: Result<(), Fault>) -> Step {
    Step::new(Edit::Protect { number, on }, answer)
}

fn remove(number: u64, answer: Result<(), Fault>) -> Step {
    Step::new(Edit::Remove { number }, answer)
}

fn run(rt: &impl Abort, tree: &mut Tree, steps: &[Step]) {
    for step in steps {
        assert_eq!(rt; edit(tree, step.edit, RAM), step.answer);
    }
}

#[test]
fn the_highest_row_decides(rt: HostRuntime) -> Result<(), Fail> {
    let mut tree = Tree::new(0x10000)?;
    let steps = [
        container(64, 0, Err(Fault::BadSize)),
        container(1, TOP + 1, Err(Fault::BadSize)),
        alias(64, 64, TOP + 1, Err(Fault::BadOffset)),
        container(64, TOP, Err(Fault::NoRegion(64))),
        alias(5, 5, TOP, Err(Fault::NoRegion(5))),
        attach(1, 64, Err(Fault::NoRegion(1))),
        attach(0, 64, Err(Fault::NoRegion(64))),
        leaf(0, 16, 65536, Err(Fault::Defined)),
        leaf(2, 8192, 65536, Err(Fault::BadDevice(65536))),
        leaf(2, 8193, 0, Err(Fault::BadDevice(0))),
        leaf(2, 8192, 65535, Ok(())),
        attach(0, 2, Err(Fault::Root)),
        attach(2, 2, Err(Fault::NoContainer)),
        container(3, 16, Ok(())),
        attach(3, 3, Err(Fault::Cycle)),
        attach(2, 3, Ok(())),
        attach(2, 0, Err(Fault::InUse)),
    ];
    run(&rt, &mut tree, &steps);
    Ok(())
}

#[test]
fn paths_neither_come_back_nor_run_on(rt: HostRuntime) -> Result<(), Fail> {
    let mut tree = Tree::new(0x10000)?;
    for number in 1..10 {
        run(
            &rt,
            &mut tree,
            &[
                container(number, 16, Ok(())),
                leaf(number + 10, 16, 0, Ok(())),
            ],
        );
    }
    // From the root to region 8 there are 8 edges.
    for number in 1..9 {
        run(&rt, &mut tree, &[attach(number, number - 1, Ok(()))]);
    }
    let steps = [
        attach(11, 7, Ok(())),
        attach(12, 8, Err(Fault::TooDeep)),
        alias(30, 0, 0, Err(Fault::TooDeep)),
        alias(30, 1, 0, Ok(())),
        attach(30, 9, Err(Fault::TooDeep)),
        attach(30, 8, Err(Fault::Cycle)),
        detach(1, Ok(())),
        attach(1, 8, Err(Fault::Cycle)),
        attach(12, 8, Err(Fault::TooDeep)),
        remove(30, Ok(())),
        attach(12, 8, Ok(())),
    ];
    run(&rt, &mut tree, &steps);
    Ok(())
}

#[test]
fn regions_in_use_stay(rt: HostRuntime) -> Result<(), Fail> {
    let mut tree = Tree::new(0x10000)?;
    let steps = [
        container(1, 16, Ok(())),
        leaf(2, 16, 0, Ok(())),
        attach(2, 1, Ok(())),
        alias(3, 2, 0, Ok(())),
        remove(0, Err(Fault::Root)),
        remove(1, Err(Fault::InUse)),
        remove(2, Err(Fault::InUse)),
        detach(2, Ok(())),
        remove(2, Err(Fault::InUse)),
        detach(2, Err(Fault::Unattached)),
        move_to(2, TOP, Err(Fault::Unattached)),
        move_to(9, TOP + 1, Err(Fault::BadOffset)),
        remove(3, Ok(())),
        remove(2, Ok(())),
        switch(2, true, Err(Fault::NoRegion(2))),
        protect(0, true, Err(Fault::Root)),
        protect(1, true, Ok(())),
    ];
    run(&rt, &mut tree, &steps);
    Ok(())
}

// The child that stands at a place of the search order.
fn child_at(tree: &Tree, place: usize) -> Option<u8> {
    let attachment = tree.table.order.attachments().get(place)?;
    Some(attachment.child)
}

#[test]
fn the_last_attached_or_moved_leads_its_equals(rt: HostRuntime) -> Result<(), Fail> {
    let mut tree = Tree::new(0x10000)?;
    let steps = [
        leaf(1, 16, 0, Ok(())),
        leaf(2, 16, 0, Ok(())),
        leaf(3, 16, 0, Ok(())),
        attach_at(3, 0, -32768, Ok(())),
        attach(1, 0, Ok(())),
        attach(2, 0, Ok(())),
    ];
    run(&rt, &mut tree, &steps);
    assert_eq!(rt; child_at(&tree, 0), Some(2));
    let steps = [move_to(1, 0, Ok(())), move_to(3, 8, Ok(()))];
    run(&rt, &mut tree, &steps);
    assert_eq!(rt; child_at(&tree, 0), Some(1));
    assert_eq!(rt; child_at(&tree, 2), Some(3));
    Ok(())
}
