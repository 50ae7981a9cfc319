use std::test::Fail;
use tree::order::{Full, SearchOrder};
use tree::regions::Attachment;
use tree::tree::Tree;

#[test]
fn sizes_of_the_root(rt: HostRuntime) {
    assert!(rt; Tree::new(0).is_err());
    assert!(rt; Tree::new(1).is_ok());
    assert!(rt; Tree::new(0x100_0000_0000).is_ok());
    assert!(rt; Tree::new(0x100_0000_0001).is_err());
}

#[test]
fn the_root_alone_shows_nothing(rt: HostRuntime) -> Result<(), Fail> {
    let tree = Tree::new(0x10000)?;
    assert_eq!(rt; tree.root_size(), 0x10000);
    assert!(rt; tree.region(0).is_some());
    assert!(rt; tree.region(1).is_none());
    assert!(rt; tree.region(64).is_none());
    assert!(rt; tree.find(0xffff).is_none());
    assert_eq!(rt; tree.probe(0x4000, 0x100).extent, 0x100);
    assert_eq!(rt; tree.probe(0x4000, u64::MAX).extent, 0xc000);
    assert_eq!(rt; tree.probe(u64::MAX, u64::MAX).extent, u64::MAX);
    Ok(())
}

fn attachment(child: u8, priority: i16) -> Attachment {
    Attachment {
        child,
        parent: 0,
        offset: 0,
        priority,
    }
}

#[test]
fn the_later_leads_its_equals(rt: HostRuntime) -> Result<(), Fail> {
    let mut order = SearchOrder::new();
    assert!(rt; order.attachments().is_empty());
    assert_eq!(rt; order.insert(attachment(1, 0)), Ok(()));
    assert_eq!(rt; order.insert(attachment(2, 7)), Ok(()));
    assert_eq!(rt; order.insert(attachment(3, 0)), Ok(()));
    assert!(rt;
        order.attachments() == [attachment(2, 7), attachment(3, 0), attachment(1, 0)].as_slice()
    );
    assert_eq!(rt; order.insert(attachment(1, 0)), Ok(()));
    assert!(rt;
        order.attachments() == [attachment(2, 7), attachment(1, 0), attachment(3, 0)].as_slice()
    );
    order.take_out(2);
    assert!(rt; order.attachments() == [attachment(1, 0), attachment(3, 0)].as_slice());
    assert!(rt; order.attachment_of(2).is_none());
    assert!(rt; order.attachment_of(3).is_some());
    assert!(rt; order.has_children(0));
    assert!(rt; !order.has_children(1));
    Ok(())
}

#[test]
fn sixty_three_are_all(rt: HostRuntime) -> Result<(), Fail> {
    let mut order = SearchOrder::new();
    for child in 1..=63 {
        assert_eq!(rt; order.insert(attachment(child, 0)), Ok(()));
    }
    assert_eq!(rt; order.insert(attachment(64, 0)), Err(Full));
    assert_eq!(rt; order.insert(attachment(63, 1)), Ok(()));
    Ok(())
}
